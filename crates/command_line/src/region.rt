ghost use Rattle.std.specs.Prelude.{◌≡◌, ◌≢◌, ◌↔◌, IfSome, IfNone, IsTrue};
ghost use Rattle.map_model.specs.LayerNames.{IsLayerName};
ghost use Rattle.questions.specs.KindTexts.{kind_text};
ghost use Rattle.questions.specs.declared.kind.Kind.{Kind as AnyKind};
ghost use Rattle.command_line.specs.OptionNames.{Text};
ghost use Rattle.command_line.specs.RegionTexts.{HasThreeParts};

use crate::cell::parts;
use map_model::LayerName;
use questions::Kind;

/// The three parts of a text with two commas.
pub fn three_parts(text: &str) -> Option<(&str, &str, &str)>
    ensures some { IfSome result (λ found. HasThreeParts text.now found.0.now found.1.now found.2.now) }
    ensures none { IfNone result ((first second third : Text) → HasThreeParts text.now first second third → ⊥) }
{
    let Some((first, rest)) = text.split_once(',') else {
        return None;
    };
    let Some((second, third)) = parts(rest) else {
        return None;
    };
    Some((first, second, third))
}

/// The kind of fault that a word is for.
pub fn kind_of(word: &str) -> Option<Kind>
    ensures some { IfSome result (λ kind. word.now ≡ kind_text kind) }
    ensures none { IfNone result ((kind : AnyKind) → word.now ≢ kind_text kind) }
{
    match word {
        "short" => Some(Kind::Short),
        "open" => Some(Kind::Open),
        "via" => Some(Kind::Via),
        _ => None,
    }
}

/// Whether a text is the name of a layer.
pub fn is_layer_name(text: &str) -> bool
    ensures { IsTrue result ↔ IsLayerName text.now }
{
    LayerName::new(text.as_bytes()).is_some()
}
