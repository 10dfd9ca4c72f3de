//! The names of the kinds of records.

ghost use Rattle.std.specs.Prelude.{◌≡◌, option_copied};
ghost use Rattle.gds_records.specs.KindNames.{name_of_kind};

/// The name of each kind in the GDSII Stream Format Manual, Release 6.0, at the kind's number, where it has one. Some are of
/// kinds that are not read.
static NAMES: [Option<&str>; 60] = [
    Some("HEADER"),
    Some("BGNLIB"),
    Some("LIBNAME"),
    Some("UNITS"),
    Some("ENDLIB"),
    Some("BGNSTR"),
    Some("STRNAME"),
    Some("ENDSTR"),
    Some("BOUNDARY"),
    Some("PATH"),
    Some("SREF"),
    Some("AREF"),
    Some("TEXT"),
    Some("LAYER"),
    Some("DATATYPE"),
    Some("WIDTH"),
    Some("XY"),
    Some("ENDEL"),
    Some("SNAME"),
    Some("COLROW"),
    Some("TEXTNODE"),
    Some("NODE"),
    Some("TEXTTYPE"),
    Some("PRESENTATION"),
    None,
    Some("STRING"),
    Some("STRANS"),
    Some("MAG"),
    Some("ANGLE"),
    None,
    None,
    Some("REFLIBS"),
    Some("FONTS"),
    Some("PATHTYPE"),
    Some("GENERATIONS"),
    Some("ATTRTABLE"),
    Some("STYPTABLE"),
    Some("STRTYPE"),
    Some("ELFLAGS"),
    Some("ELKEY"),
    None,
    None,
    Some("NODETYPE"),
    Some("PROPATTR"),
    Some("PROPVALUE"),
    Some("BOX"),
    Some("BOXTYPE"),
    Some("PLEX"),
    Some("BGNEXTN"),
    Some("ENDEXTN"),
    Some("TAPENUM"),
    Some("TAPECODE"),
    Some("STRCLASS"),
    None,
    Some("FORMAT"),
    Some("MASK"),
    Some("ENDMASKS"),
    Some("LIBDIRSIZE"),
    Some("SRFNAME"),
    Some("LIBSECUR"),
];

/// The name of a kind of records in the GDSII Stream Format Manual, Release 6.0, where it has one, also of a kind that the
/// table of records does not have.
pub fn kind_name(kind: u8) -> Option<&'static str>
    ensures { option_copied result ≡ name_of_kind kind }
{
    let number = usize::from(kind);
    if number < NAMES.len() {
        NAMES[number]
    } else {
        None
    }
}
