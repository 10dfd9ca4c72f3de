use geo_core::Labelled;

/// A label, and by how many zones it leads all others together.
#[derive(Clone, Copy)]
pub struct Lead {
    pub label: usize,
    pub zones: usize,
}

impl Lead {
    /// The same with one zone more, of this label.
    fn met(self, label: usize) -> Lead {
        if label == self.label {
            return Lead {
                label,
                zones: self.zones.saturating_add(1),
            };
        }
        if self.zones == 0 {
            return Lead { label, zones: 1 };
        }
        Lead {
            label: self.label,
            zones: self.zones - 1,
        }
    }
}

/// The label that leads all others together, where one does, and by how many zones. The one that is left over when zones of
/// different labels are taken away in pairs is the only one that can, and at least so many of its zones are left.
pub fn lead_of(zones: &[Labelled]) -> Lead {
    let mut lead = Lead { label: 0, zones: 0 };
    for zone in zones {
        lead = lead.met(zone.label);
    }
    lead
}
