ghost use Rattle.std.specs.Prelude.{◌≡◌, ◌↔◌, IsTrue, Contains, option_map};
ghost use Rattle.library_grammar.specs.ElementForms.{IsCount, own_kinds};
ghost use Rattle.gds_syntax.specs.ElementKinds.{form_for};
ghost use Rattle.library_grammar.specs.Places.{form_of};

use gds_records::kinds;

/// An element by the record that opens it.
#[derive(Clone, Copy, PartialEq, Eq)]
pub enum ElementKind {
    Boundary,
    Path,
    Sref,
    Aref,
    Text,
    Node,
    BoxElement,
}

impl ElementKind {
    /// The element that a record of this kind opens.
    pub fn opened_by(kind: u8) -> Option<ElementKind>
        ensures { option_map form_for result ≡ form_of kind }
    {
        match kind {
            kinds::BOUNDARY => Some(ElementKind::Boundary),
            kinds::PATH => Some(ElementKind::Path),
            kinds::SREF => Some(ElementKind::Sref),
            kinds::AREF => Some(ElementKind::Aref),
            kinds::TEXT => Some(ElementKind::Text),
            kinds::NODE => Some(ElementKind::Node),
            kinds::BOX => Some(ElementKind::BoxElement),
            _ => None,
        }
    }

    /// The kinds of the records that it needs, in rising order.
    pub fn required(self) -> &'static [u8]
        ensures { result.now ≡ (form_for self).required }
    {
        match self {
            ElementKind::Boundary | ElementKind::Path => &[
                kinds::LAYER,
                kinds::DATATYPE,
                kinds::XY,
            ],
            ElementKind::Sref => &[kinds::XY, kinds::SNAME],
            ElementKind::Aref => &[kinds::XY, kinds::SNAME, kinds::COLROW],
            ElementKind::Text => &[kinds::LAYER, kinds::XY, kinds::TEXTTYPE, kinds::STRING],
            ElementKind::Node => &[kinds::LAYER, kinds::XY, kinds::NODETYPE],
            ElementKind::BoxElement => &[kinds::LAYER, kinds::XY, kinds::BOXTYPE],
        }
    }

    /// The kinds of the records that it may have besides.
    pub fn optional(self) -> &'static [u8]
        ensures { result.now ≡ (form_for self).optional }
    {
        match self {
            ElementKind::Boundary | ElementKind::Node | ElementKind::BoxElement => {
                &[kinds::ELFLAGS, kinds::PLEX]
            }
            ElementKind::Path => &[
                kinds::ELFLAGS,
                kinds::PLEX,
                kinds::PATHTYPE,
                kinds::WIDTH,
                kinds::BGNEXTN,
                kinds::ENDEXTN,
            ],
            ElementKind::Sref | ElementKind::Aref => &[
                kinds::ELFLAGS,
                kinds::PLEX,
                kinds::STRANS,
                kinds::MAG,
                kinds::ANGLE,
            ],
            ElementKind::Text => &[
                kinds::ELFLAGS,
                kinds::PLEX,
                kinds::PRESENTATION,
                kinds::PATHTYPE,
                kinds::WIDTH,
                kinds::STRANS,
                kinds::MAG,
                kinds::ANGLE,
            ],
        }
    }

    /// Whether a record of this kind can be one of its own.
    pub fn owns(self, kind: u8) -> bool
        ensures { IsTrue result ↔ Contains (own_kinds (form_for self)) kind }
    {
        self.required().contains(&kind) || self.optional().contains(&kind)
    }

    /// Whether it may have so many points.
    pub fn takes_points(self, count: usize) -> bool
        ensures { IsTrue result ↔ IsCount (form_for self).points count }
    {
        match self {
            ElementKind::Boundary | ElementKind::BoxElement => count >= 4,
            ElementKind::Path | ElementKind::Text | ElementKind::Node => count >= 1,
            ElementKind::Sref => count == 1,
            ElementKind::Aref => count == 3,
        }
    }
}
