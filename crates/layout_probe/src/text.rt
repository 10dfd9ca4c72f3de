ghost use Rattle.std.specs.Prelude.{◌≡◌, OnErr, OnOk, string_bytes};
ghost use Rattle.std.specs.List.{flat_map};
ghost use Rattle.report.specs.Gains.{Gains};
ghost use Rattle.layout_probe.specs.ProbeText.{near_line, probe_text};

use super::metal_near::MetalNear;
use lists::NoMemory;

/// Appends a line for each metal to `into`, in order: `near m1 d=2 net=1 d=3 net=0` with the nearest net and the second,
/// `near m1 d=2 net=1 none` where there is no second, and `near m1 none` where there is no net. All is ASCII, numbers are decimal,
/// and each line ends with a newline. Where memory runs out, `into` is as before.
pub fn write_probe(metals: &[MetalNear], into: &mut Vec<u8>) -> Result<(), NoMemory>
    ensures written { OnOk result (Gains into.old.items into.new.items (probe_text metals.now)) }
    ensures unchanged { OnErr result (into.new.items ≡ into.old.items) }
{
    let mut text = String::new(*into.allocator());
    write_lines(&mut text, metals)?;
    into.extend_from_slice(text.as_bytes())?;
    Ok(())
}

/// Appends the line of each metal.
fn write_lines(text: &mut String, metals: &[MetalNear]) -> Result<(), NoMemory>
    ensures { OnOk result (Gains (string_bytes text.old) (string_bytes text.new) (flat_map near_line metals.now)) }
{
    for metal in metals {
        write_line(text, metal)?;
    }
    Ok(())
}

/// Appends the line of a metal.
fn write_line(text: &mut String, metal: &MetalNear) -> Result<(), NoMemory>
    ensures { OnOk result (Gains (string_bytes text.old) (string_bytes text.new) (near_line metal.now)) }
{
    let layer = metal.layer.as_str();
    let Some(first) = metal.nearest.first else {
        writeln!(text, "near {layer} none")?;
        return Ok(());
    };
    let Some(second) = metal.nearest.second else {
        writeln!(
            text,
            "near {layer} d={} net={} none",
            first.distance, first.label
        )?;
        return Ok(());
    };
    writeln!(
        text,
        "near {layer} d={} net={} d={} net={}",
        first.distance, first.label, second.distance, second.label
    )?;
    Ok(())
}
