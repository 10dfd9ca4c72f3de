ghost use Rattle.std.specs.Prelude.{◌≡◌, ◌≤◌, ◌↔◌, ◌^◌, ℕ, List, [], ◌∷◌};
ghost use Rattle.edge_io.specs.Bytes.{Appends};
ghost use Rattle.run_inputs.specs.Contents.{file, layout_source, map_names, names_in};
ghost use Rattle.run_inputs.specs.StageAnswers.{AreItems, BytesMayCome, FindsInFiles, IsMapOf, LayoutMayCome, MapMayCome};
ghost use Rattle.run_inputs.specs.Failures.{IsUnsureOf, change};

use super::refusal::{LAYOUT_LIMIT, LAYOUT_TOO_LONG, MAP_LIMIT, MAP_TOO_LONG, Refusal};
use super::unreported::Unreported;
use command_line::{Request, Task};
use edge_io::{Files, ReadError, read_whole};
use layer_map::read_map;
use layout_gen::{generate, layer_map};
use map_model::{Map, one_metal};
use std::alloc::Global;

/// The bytes of the file of this name, or why there are none: this refusal, where it has more than the limit.
fn bytes_in<F: Files>(
    alloc: Global,
    files: &mut F,
    name: &[u8],
    limit: usize,
    too_long: Refusal,
) -> Result<Vec<u8>, Unreported>
    requires { limit ≤ 2 ^ 30 }
    ensures found { FindsInFiles (change (F.faults files.old) (F.faults files.new)) (IsUnsureOf (F.sure files.old) (name.now ∷ []))
        (BytesMayCome (F.holds files.old) (file name.now) limit too_long) AreItems result }
    ensures starts { Appends (F.starts files.old) (F.starts files.new) (name.now ∷ []) }
    ensures holds { (n : List ℕ) → F.holds files.new n ≡ F.holds files.old n }
    ensures sure { (n : List ℕ) → F.sure files.new n ↔ F.sure files.old n }
{
    match read_whole(alloc, files, name, limit) {
        Ok(bytes) => Ok(bytes),
        Err(ReadError::Fault) => Err(Unreported::FilesFailed),
        Err(ReadError::TooLong) => Err(Unreported::Refused(too_long)),
        Err(ReadError::Memory) => Err(Unreported::Memory),
    }
}

/// The map that is asked for, or why there is none: that of one metal is made, that of a generated layout goes with it, and
/// any other is in the file that is named.
pub fn map_for<F: Files>(alloc: Global, request: &Request, files: &mut F) -> Result<Map, Unreported>
    ensures found { FindsInFiles (change (F.faults files.old) (F.faults files.new)) (IsUnsureOf (F.sure files.old) (map_names request.now.task))
        (MapMayCome (F.holds files.old) request.now.task) IsMapOf result }
    ensures starts { Appends (F.starts files.old) (F.starts files.new) (map_names request.now.task) }
    ensures holds { (name : List ℕ) → F.holds files.new name ≡ F.holds files.old name }
    ensures sure { (name : List ℕ) → F.sure files.new name ↔ F.sure files.old name }
{
    match &request.task {
        Task::OneMetal {
            layer,
            datatype,
            radius,
            ..
        } => Ok(one_metal(alloc, *layer, *datatype, *radius)?),
        Task::Mapped { map, .. }
        | Task::Pairs { map, .. }
        | Task::Probe { map, .. }
        | Task::Regions { map, .. } => {
            let bytes = bytes_in(alloc, files, map.as_slice(), MAP_LIMIT, MAP_TOO_LONG)?;
            Ok(read_map(alloc, bytes.as_slice())?)
        }
        Task::Generated { .. } => Ok(read_map(alloc, layer_map().as_bytes())?),
    }
}

/// The bytes of the layout that is asked for, or why there are none: those of a generated layout are made, and those of any
/// other are in the file that is named.
pub fn layout_for<F: Files>(
    alloc: Global,
    request: &Request,
    files: &mut F,
) -> Result<Vec<u8>, Unreported>
    ensures found { FindsInFiles (change (F.faults files.old) (F.faults files.new))
        (IsUnsureOf (F.sure files.old) (names_in (layout_source request.now.task)))
        (LayoutMayCome (F.holds files.old) (layout_source request.now.task)) AreItems result }
    ensures starts { Appends (F.starts files.old) (F.starts files.new) (names_in (layout_source request.now.task)) }
    ensures holds { (name : List ℕ) → F.holds files.new name ≡ F.holds files.old name }
{
    match &request.task {
        Task::OneMetal { layout, .. }
        | Task::Mapped { layout, .. }
        | Task::Pairs { layout, .. }
        | Task::Probe { layout, .. }
        | Task::Regions { layout, .. } => {
            let name = layout.as_slice();
            bytes_in(alloc, files, name, LAYOUT_LIMIT, LAYOUT_TOO_LONG)
        }
        Task::Generated { n } => {
            let made = generate(alloc, *n)?;
            Ok(made.0)
        }
    }
}
