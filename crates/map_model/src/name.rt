ghost use Rattle.std.specs.Prelude.{◌≡◌, ◌↔◌, Some, IsSome, IfSome, IsTrue, All, codes};
ghost use Rattle.map_model.specs.LayerNames.{is_name_byte, IsLayerName};

use super::limits::LONGEST_NAME;
use std::marker::Model;

/// The name of a metal or a cut: 1 to 32 ASCII letters, digits and `_`. Contracts see it as the list of its bytes.
#[derive(Clone, Copy, PartialEq, Eq)]
pub struct LayerName {
    // The bytes of the name, and then zeros.
    bytes: [u8; LONGEST_NAME],
    len: usize,
}

impl Model for LayerName {
    ghost use Rattle.std.specs.Prelude.{ℕ, ◌-◌, ◌++◌, List, length, take, replicate};
    ghost use Rattle.map_model.specs.declared.limits.TheConstants.{LONGEST_NAME};

    ghost Value = { List ℕ };

    ghost use Rattle.map_model.specs.NameFields.{IsPadded, fields_come_back};

    ghost view = { λ name. take name.len name.bytes };

    ghost invariant = { IsPadded };

    ghost inverse = { λ name. record { bytes = name ++ replicate (LONGEST_NAME - length name) 0; len = length name } };

    ghost inverse_ok = { fields_come_back };
}

impl LayerName {
    /// The name with these bytes, and `None` exactly where they are no name.
    pub fn new(name: &[u8]) -> Option<LayerName>
        ensures name { IfSome result (λ made. made ≡ name.now) }
        ensures valid { IsSome result ↔ IsLayerName name.now }
    {
        if !is_name(name) {
            return None;
        }
        let mut bytes = [0; LONGEST_NAME];
        bytes[..name.len()].copy_from_slice(name);
        Some(LayerName {
            bytes,
            len: name.len(),
        })
    }

    /// The name `m`, which the metal has where there is one alone.
    pub fn m() -> LayerName
        ensures { result ≡ codes "m" }
    {
        let mut bytes = [0; LONGEST_NAME];
        bytes[0] = b'm';
        LayerName { bytes, len: 1 }
    }

    /// The bytes of the name.
    pub fn as_slice(&self) -> &[u8]
        ensures name { result.now ≡ self.now }
        ensures valid { IsLayerName result.now }
    {
        &self.bytes[..self.len]
    }

    /// The name as text.
    pub fn as_str(&self) -> &str
        ensures { result.now ≡ self.now }
    {
        match std::str::from_utf8(self.as_slice()) {
            Ok(text) => text,
            // A name is of ASCII, so this does not come.
            Err(_) => "",
        }
    }
}

/// Whether the bytes are a name.
fn is_name(bytes: &[u8]) -> bool
    ensures { IsTrue result ↔ IsLayerName bytes.now }
{
    !bytes.is_empty() && bytes.len() <= LONGEST_NAME && are_name_bytes(bytes)
}

/// Whether a name may have each of the bytes.
fn are_name_bytes(bytes: &[u8]) -> bool
    ensures { IsTrue result ↔ All (λ b. IsTrue (is_name_byte b)) bytes.now }
{
    bytes
        .iter()
        .all(|byte| byte.is_ascii_alphanumeric() || *byte == b'_')
}
