//! The kinds of records, as the GDSII Stream Format Manual, Release 6.0, numbers them.

ghost use Rattle.std.specs.Prelude.{◌≡◌};

/// The version of the stream format.
pub const HEADER: u8 = 0x00;
/// When the library was last changed and read. It begins the library.
pub const BGNLIB: u8 = 0x01;
/// The library's name.
pub const LIBNAME: u8 = 0x02;
/// The database unit, in user units and in metres.
pub const UNITS: u8 = 0x03;
/// The end of the library, and the last record of a stream.
pub const ENDLIB: u8 = 0x04;
/// When the structure was last changed and read. It begins a structure.
pub const BGNSTR: u8 = 0x05;
/// The structure's name.
pub const STRNAME: u8 = 0x06;
/// The end of a structure.
pub const ENDSTR: u8 = 0x07;
/// Begins a filled polygon.
pub const BOUNDARY: u8 = 0x08;
/// Begins an open line with a width.
pub const PATH: u8 = 0x09;
/// Begins a reference to a structure.
pub const SREF: u8 = 0x0A;
/// Begins an array of references to a structure.
pub const AREF: u8 = 0x0B;
/// Begins an annotation.
pub const TEXT: u8 = 0x0C;
/// The layer of an element.
pub const LAYER: u8 = 0x0D;
/// The datatype of a boundary or a path.
pub const DATATYPE: u8 = 0x0E;
/// The width of a path or of an annotation's lines.
pub const WIDTH: u8 = 0x0F;
/// The coordinates of an element, in database units.
pub const XY: u8 = 0x10;
/// The end of an element.
pub const ENDEL: u8 = 0x11;
/// The name of the structure that is referred to.
pub const SNAME: u8 = 0x12;
/// The columns and rows of an array.
pub const COLROW: u8 = 0x13;
/// Begins a node of an electrical net.
pub const NODE: u8 = 0x15;
/// The type of an annotation.
pub const TEXTTYPE: u8 = 0x16;
/// The font and justification of an annotation.
pub const PRESENTATION: u8 = 0x17;
/// The characters of an annotation.
pub const STRING: u8 = 0x19;
/// Reflection, and whether magnification and angle are absolute.
pub const STRANS: u8 = 0x1A;
/// A magnification.
pub const MAG: u8 = 0x1B;
/// An angle, in degrees counterclockwise.
pub const ANGLE: u8 = 0x1C;
/// The names of the reference libraries.
pub const REFLIBS: u8 = 0x1F;
/// The names of the font files.
pub const FONTS: u8 = 0x20;
/// How the ends of a path look.
pub const PATHTYPE: u8 = 0x21;
/// How many old copies of a structure are kept.
pub const GENERATIONS: u8 = 0x22;
/// The name of the attribute definition file.
pub const ATTRTABLE: u8 = 0x23;
/// Whether an element is template or external data.
pub const ELFLAGS: u8 = 0x26;
/// The type of a node.
pub const NODETYPE: u8 = 0x2A;
/// The number of a property.
pub const PROPATTR: u8 = 0x2B;
/// The text of a property.
pub const PROPVALUE: u8 = 0x2C;
/// Begins a box.
pub const BOX: u8 = 0x2D;
/// The type of a box.
pub const BOXTYPE: u8 = 0x2E;
/// The number that elements of one group share.
pub const PLEX: u8 = 0x2F;
/// How far a path goes on before its first point.
pub const BGNEXTN: u8 = 0x30;
/// How far a path goes on behind its last point.
pub const ENDEXTN: u8 = 0x31;
/// The class of a structure.
pub const STRCLASS: u8 = 0x34;
/// Whether the stream is an archive or filtered.
pub const FORMAT: u8 = 0x36;
/// The layers of a filtered stream.
pub const MASK: u8 = 0x37;
/// The end of the list of layers.
pub const ENDMASKS: u8 = 0x38;
/// How many pages a library's directory has.
pub const LIBDIRSIZE: u8 = 0x39;
/// The name of the spacing rules file.
pub const SRFNAME: u8 = 0x3A;
/// Who may use the library.
pub const LIBSECUR: u8 = 0x3B;

/// The numbers of all kinds, as the manual's table of records has them. Definitions name them by the constants.
pub fn kinds_are_numbered()
    ensures { (HEADER ≡ 0x00) ×
        (BGNLIB ≡ 0x01) ×
        (LIBNAME ≡ 0x02) ×
        (UNITS ≡ 0x03) ×
        (ENDLIB ≡ 0x04) ×
        (BGNSTR ≡ 0x05) ×
        (STRNAME ≡ 0x06) ×
        (ENDSTR ≡ 0x07) ×
        (BOUNDARY ≡ 0x08) ×
        (PATH ≡ 0x09) ×
        (SREF ≡ 0x0A) ×
        (AREF ≡ 0x0B) ×
        (TEXT ≡ 0x0C) ×
        (LAYER ≡ 0x0D) ×
        (DATATYPE ≡ 0x0E) ×
        (WIDTH ≡ 0x0F) ×
        (XY ≡ 0x10) ×
        (ENDEL ≡ 0x11) ×
        (SNAME ≡ 0x12) ×
        (COLROW ≡ 0x13) ×
        (NODE ≡ 0x15) ×
        (TEXTTYPE ≡ 0x16) ×
        (PRESENTATION ≡ 0x17) ×
        (STRING ≡ 0x19) ×
        (STRANS ≡ 0x1A) ×
        (MAG ≡ 0x1B) ×
        (ANGLE ≡ 0x1C) ×
        (REFLIBS ≡ 0x1F) ×
        (FONTS ≡ 0x20) ×
        (PATHTYPE ≡ 0x21) ×
        (GENERATIONS ≡ 0x22) ×
        (ATTRTABLE ≡ 0x23) ×
        (ELFLAGS ≡ 0x26) ×
        (NODETYPE ≡ 0x2A) ×
        (PROPATTR ≡ 0x2B) ×
        (PROPVALUE ≡ 0x2C) ×
        (BOX ≡ 0x2D) ×
        (BOXTYPE ≡ 0x2E) ×
        (PLEX ≡ 0x2F) ×
        (BGNEXTN ≡ 0x30) ×
        (ENDEXTN ≡ 0x31) ×
        (STRCLASS ≡ 0x34) ×
        (FORMAT ≡ 0x36) ×
        (MASK ≡ 0x37) ×
        (ENDMASKS ≡ 0x38) ×
        (LIBDIRSIZE ≡ 0x39) ×
        (SRFNAME ≡ 0x3A) ×
        (LIBSECUR ≡ 0x3B) }
{}
