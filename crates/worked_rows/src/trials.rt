//! Runs that are tried on devices that fail.

use super::runs::{BARS, Ending, Given, ONE_METAL, PAIRS};

/// A run, how it ends if nothing fails, and how many calls of the files, of the output and of the error output it makes. A file is
/// started, read, and read again to see its end, the map's before the layout's. A text or a line is written at once.
#[derive(Clone, Copy)]
pub struct Trial<'a> {
    pub given: Given<'static>,
    pub whole: Ending<'a>,
    pub calls: [u64; 3],
}

/// Two bars under a strap, with a contact on each: two via clusters of one net. A defect of side 10 covers a contact of 2 by 2 cells
/// from 8 by 8 cells.
const STRAP: Trial<'static> = Trial {
    given: Given {
        words: "a --map m",
        shapes: &[
            (1, 0, (0, 0, 10, 4)),
            (1, 0, (0, 8, 10, 12)),
            (3, 0, (0, 0, 4, 12)),
            (2, 0, (0, 0, 2, 2)),
            (2, 0, (0, 8, 2, 10)),
        ],
        map: b"version=1\nradii=[5]\nweights=[1]\n\
            metal=[{name=\"m1\",pairs=[[1,0]]},{name=\"m2\",pairs=[[3,0]]}]\n\
            cut=[{name=\"v1\",pairs=[[2,0]],lower=\"m1\",upper=\"m2\"}]\n",
    },
    whole: Ending {
        status: 0,
        out: b"short m1 r=5 area=0 weight=1 sum=0\nshort m2 r=5 area=0 weight=1 sum=0\n\
        open m1 r=5 area=0 weight=1 sum=0\nopen m2 r=5 area=0 weight=1 sum=0\n\
        via v1 r=5 area=128 weight=1 sum=128\n\
        total short 0\ntotal open 0\ntotal via 128\ntotal 128\n\
        peak via v1 r=5 sum=128\nnonzero 1 of 5\n",
        err: b"",
    },
    calls: [6, 1, 0],
};

/// The pairs of the two bars.
const OF_BARS: Trial<'static> = Trial {
    given: Given {
        words: PAIRS,
        shapes: BARS,
        map: ONE_METAL,
    },
    whole: Ending {
        status: 0,
        out: b"pair m 0 1 r=3 area=32\npairs 1\nworst m 0 1 r=3 area=32\n",
        err: b"",
    },
    calls: [6, 1, 0],
};

/// A map that is no document, and a size that the map does not have.
const NO_MAP: Trial<'static> = Trial {
    given: Given {
        words: "a --map m",
        shapes: &[],
        map: b"x",
    },
    whole: Ending {
        status: 3,
        out: b"",
        err: b"error 40 at 0\n",
    },
    calls: [3, 0, 1],
};

const NO_SIZE: Trial<'static> = Trial {
    given: Given {
        words: "a --map m --pairs 2",
        shapes: BARS,
        map: ONE_METAL,
    },
    whole: Ending {
        status: 3,
        out: b"",
        err: b"error 48 at 1\n",
    },
    calls: [3, 0, 1],
};

/// These four.
pub const TRIALS: &[Trial<'static>] = &[STRAP, OF_BARS, NO_MAP, NO_SIZE];

/// The opens of a wire of 20 by 2 cells with a terminal at either end. A row of `run_rows` has the cells of the region file that is
/// written, and this has not its bytes.
pub const WIRE: Trial<'static> = Trial {
    given: Given {
        words: "a --map m --regions open,m1,1",
        shapes: &[(1, 0, (0, 0, 20, 2))],
        map: b"version=1\nradii=[2]\nweights=[1]\n\
            metal=[{name=\"m1\",pairs=[[1,0]]},{name=\"m2\",pairs=[[3,0]]}]\n\
            cut=[{name=\"v1\",pairs=[[2,0]],lower=\"m1\",upper=\"m2\"}]\n\
            terminal=[{metal=\"m1\",x=0,y=0},{metal=\"m1\",x=19,y=1}]\n",
    },
    whole: Ending {
        status: 0,
        out: b"",
        err: b"",
    },
    calls: [6, 1, 0],
};
