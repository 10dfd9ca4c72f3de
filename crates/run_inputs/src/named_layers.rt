ghost use Rattle.std.specs.Prelude.{ℕ, ◌≡◌, IfNone, IfSome, position};
ghost use Rattle.lists.specs.Words.{bytes_eq};
ghost use Rattle.run_inputs.specs.Inquiries.{IsLayerNamed};
ghost use Rattle.map_model.specs.MapView.{layer_map_of};

use map_model::{Cut, Map, Metal};
use questions::Kind;

/// The place of the first of the metals that has this name.
fn metal_place(metals: &[Metal], name: &[u8]) -> Option<usize>
    ensures { result ≡ position (λ metal. bytes_eq metal.name name.now) metals.now }
{
    metals
        .iter()
        .position(|metal| metal.name.as_slice() == name)
}

/// The place of the first of the cuts that has this name.
fn cut_place(cuts: &[Cut], name: &[u8]) -> Option<usize>
    ensures { result ≡ position (λ cut. bytes_eq cut.name name.now) cuts.now }
{
    cuts.iter().position(|cut| cut.name.as_slice() == name)
}

/// The number of the metal with this name, or for via blocks of the cut, as questions have it: the number of a cut goes on behind those
/// of the metals.
pub fn number_of(map: &Map, kind: Kind, name: &[u8]) -> Option<u32>
    ensures some { IfSome result (IsLayerNamed (layer_map_of map.now) kind name.now) }
    ensures none { IfNone result ((number : ℕ) → IsLayerNamed (layer_map_of map.now) kind name.now number → ⊥) }
{
    let metals = map.metals.as_slice();
    match kind {
        Kind::Short | Kind::Open => {
            let place = metal_place(metals, name)?;
            Some(place as u32)
        }
        Kind::Via => {
            let place = cut_place(map.cuts.as_slice(), name)?;
            Some((metals.len() + place) as u32)
        }
    }
}
