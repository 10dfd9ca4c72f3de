//! What each number means with which a run ends, and what to do about it. The table of docs/REFUSALS.md is made of these rows
//! by docs/tables.py.

/// What a status with a number means of the place that is told, and what to do.
#[derive(Clone, Copy)]
pub struct Remedy {
    /// What is wrong. Here means the place.
    pub meaning: &'static str,
    /// What stands at the place, or the place itself where it is always the same.
    pub place: &'static str,
    /// What to do.
    pub remedy: &'static str,
}

/// The rows, each in a line: a status, a number, which is 0 where none is told, and the fields of their `Remedy`, with bars
/// between them.
const ROWS: &str = "\
2|2|the arguments fit no form of the command|0|compare them with `critarea --help`
3|39|the map has more than 1,048,576 bytes|1048576|see whether it is the file that you mean, or shorten its comments: a map at all limits fits
3|40|the map is no text in UTF-8, or no TOML document|0|see whether it is the file that you mean; `critarea --explain` tells the line
3|41|a key stands here that is not known|the table that has it|look here for a key that is misspelt or belongs elsewhere
3|42|a value is missing here, or is not of the kind or in the range that belongs here|the value|compare it with *Keys of a map* in docs/REFUSALS.md
3|43|a layer and datatype here stand twice in the map|the later `pairs`|leave it to one metal or cut, and list it there once
3|44|an earlier metal or cut has this name|the later `name`|give each a name of its own
3|45|no metal has the name that stands here|the name|write the name of a metal as its `name` has it, capital letters too
3|46|an earlier terminal is the same cell of the same metal|the later terminal|leave one of the two out
3|47|there are too many: 32 radii or sides, 16 metals, 16 cuts and 10,000 terminals are the most|the list|shorten the list; of terminals make two maps without `contacts` with those of each island in one, and add up their opens, as docs/GUIDE.md says
3|48|the option names a size number above the number of the map's sizes|the number of the map's sizes|name one of the map's radii or sides by its number, counted from 1, or add the size to the map
3|49|no metal of the map has the name that --regions gives, or for via no cut|0|for short and open write the name of a metal, and for via that of a cut, as its `name` has it, capital letters too
4|9|the layout has more than 268,435,456 bytes|268435456|take a part of the layout, or only the layers that the map names
4|10|the file ends here, or within the record that begins here, and ENDLIB has not come|the record|fetch or write the file anew, since it was cut short
4|11|the record here has a length that is odd or below 4|the record|export the layout anew
4|12|the record here is of a kind that is not read, or its data are not of the form of its kind|the record|export the layout without such records, which docs/PROFILE.md lists
4|13|the record here has a body of a size that its kind does not have|the record|export the layout anew
4|14|the record here may not stand where it does|the record|export the layout anew, and for a second XY in one element with fewer points a polygon; docs/PROFILE.md has the order
4|15|the element here lacks a record that it needs|the element|redraw it or remove it; docs/PROFILE.md has what it needs
4|16|an earlier structure has the name that stands here|the later STRNAME|give each structure a name of its own
4|17|the element here has too few points, or too many|the element|redraw it or remove it: boundaries and boxes have 4 points or more, paths, texts and nodes 1 or more, references 1, and arrays 3
4|18|the boundary or box here does not end at its first point|the element|close the outline, or remove it
4|19|the reference here is magnified|the element|flatten it, or place a structure that has the size that is meant
4|20|the reference here is turned by an angle that is no multiple of 90 degrees from -360 to 360|the element|flatten it, or turn it by 0, 90, 180 or 270
4|21|the reference here has an absolute angle|the element|place it with an angle that is not absolute, or flatten it
4|22|the array here has columns or rows below 1, as numbers of two bytes with sign|the element|remove an empty array, and split one with more than 32,767 columns or rows
4|23|the columns or the rows of the array here are no whole number of database units apart|the element|flatten it, or use a database unit that divides its steps
4|24|the reference here names a structure that the library does not have|the element|export the layout with all structures that it refers to, or remove the reference
4|25|references lead on from the structure here without end, into a circle|the structure|follow them and remove the one that closes the circle
4|26|more than 256 references follow one another from the top, which begins here|the structure|flatten the lowest levels of the hierarchy
4|27|no structure has the name that --top gives, or the library has no structure|0|write the name as its STRNAME has it, capital letters too
4|28|two structures or more are named by no reference, of which the second begins here|the structure|name the top that you mean by --top NAME
4|29|the top, which begins here, places more than 1,000,000 shapes on layers of the map, or more than 8,000,000 points in them|the structure|name a smaller structure by --top NAME, take a part of the layout, or ask for fewer metals at a time
4|30|a point of the shape here is placed, or a rectangle of the path here reaches, more than 1,000,000,000 from 0|the element|look for a reference placed by mistake: in nanometres this is a metre; else move the layout, or choose a coarser database unit
4|31|the shape here is slanted: two points that follow one another differ in both coordinates|the element|redraw it with edges along the axes, or draw it in steps
4|32|the path here has round ends|the element|give it flush or square ends, PATHTYPE 0 or 2
4|33|the path here has an odd width, and half of it is no whole number of database units|the element|make it one unit wider or narrower, draw it as a polygon, or halve the database unit
4|34|the path here turns back along the piece before it|the element|take out the point at which it turns, or draw two paths
4|35|the path here has an unknown PATHTYPE, or a piece of it is no longer than what its extensions take away|the element|use PATHTYPE 0, 2 or 4, and extensions that leave something of each piece
4|36|all points of the path here are equal|the element|remove it, or draw a rectangle
4|50|the metal of a terminal does not cover its cell|the number of the first such, counted from 0 in the map|move it to a cell that its metal covers, leave it out, or see whether the metal has the right pairs
5|0|a file could not be read, or an output could not be written||see whether the file is there, is no folder and may be read, and whether an output is closed or its disk full
6|0|out of memory||use a machine with more memory, or take a part of the layout
7|0|the system does not tell the arguments as texts||write names of files in UTF-8
";

/// What a status with a number means, where a run ends so.
pub fn known_remedy(status: u8, number: u64) -> Option<Remedy> {
    for row in ROWS.split('\n') {
        if let Some((of_status, rest)) = row.split_once('|')
            && let Some((of_number, rest)) = rest.split_once('|')
            && let Some((meaning, rest)) = rest.split_once('|')
            && let Some((place, remedy)) = rest.split_once('|')
            && let (Ok(of_status), Ok(of_number)) = (
                of_status.parse::<u8>(),
                of_number.parse::<u64>(),
            )
            && of_status == status
            && of_number == number
        {
            return Some(Remedy {
                meaning,
                place,
                remedy,
            });
        }
    }
    None
}

/// What a status with a number means, with which runs end.
pub fn remedy_of(status: u8, number: u8) -> Remedy {
    known_remedy(status, u64::from(number)).unwrap_or(Remedy {
        meaning: "the layout is refused",
        place: "",
        remedy: "see docs/REFUSALS.md",
    })
}

/// The numbers of shapes without a cover, and what each means, in short.
pub const SHORT_MEANINGS: &[(u8, &str)] = &[
    (30, "out of range"),
    (31, "slanted"),
    (32, "round ends"),
    (33, "odd width"),
    (34, "turns back"),
    (35, "unknown ends, or a piece eaten up"),
    (36, "all points equal"),
];

/// What a number means of a shape without a cover, in short.
pub fn short_meaning(number: u8) -> &'static str {
    for (of, meaning) in SHORT_MEANINGS {
        if *of == number {
            return *meaning;
        }
    }
    "no cover"
}
