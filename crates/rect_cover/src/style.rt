/// What a path says of its ends and its width, as GDSII's PATHTYPE, WIDTH, BGNEXTN and ENDEXTN. Lengths are in database
/// units, and what is absent is 0.
#[derive(Clone, Copy)]
pub struct PathStyle {
    /// 0 for flush ends, 1 for round ones, 2 for half a width further, 4 for extensions of their own.
    pub pathtype: i16,
    /// The width. A sign says that it is not scaled, which makes no difference here.
    pub width: i32,
    /// How far it goes on before its first point, where it has extensions of its own.
    pub begin: i32,
    /// How far it goes on behind its last point, where it has extensions of its own.
    pub end: i32,
}

impl PathStyle {
    ghost use Rattle.std.specs.Prelude.{◌≡◌, ◌↔◌, IsTrue};
    ghost use Rattle.rect_cover.specs.ShapeChecks.{IsEven, IsKnownPathtype};
    ghost use Rattle.rect_cover.specs.PathPieces.{half_width_of, reach_past, reach_before, reach_behind};

    /// Whether its ends are flush, round, half a width further, or at extensions of their own.
    pub fn has_known_ends(self) -> bool
        ensures { IsTrue result ↔ IsKnownPathtype self.pathtype }
    {
        [0, 1, 2, 4].contains(&self.pathtype)
    }

    /// Whether half its width is a whole number of database units.
    pub fn has_even_width(self) -> bool
        ensures { IsTrue result ↔ IsEven self.width }
    {
        self.width.unsigned_abs().is_multiple_of(2)
    }

    /// Half the amount of its width.
    pub fn half_width(self) -> i32
        ensures { result ≡ half_width_of self }
    {
        (self.width.unsigned_abs() / 2) as i32
    }

    /// How far it reaches past an end that has this extension.
    fn reach_past(self, extension: i32) -> i32
        ensures { result ≡ reach_past self.pathtype (half_width_of self) extension }
    {
        match self.pathtype {
            2 => self.half_width(),
            4 => extension,
            _ => 0,
        }
    }

    /// How far it reaches past its first point.
    pub fn reach_before(self) -> i32
        ensures { result ≡ reach_before self }
    {
        self.reach_past(self.begin)
    }

    /// How far it reaches past its last point.
    pub fn reach_behind(self) -> i32
        ensures { result ≡ reach_behind self }
    {
        self.reach_past(self.end)
    }
}
