//! The transform in lanes beside the one without, and beside sums that were computed elsewhere.
ghost use Rattle.std.specs.Prelude.{◌^◌, ◌<◌, ◌≤◌, unsigned_abs};
ghost use Rattle.fixed_complex.specs.PairLists.{PairsOfSize, PairsWithin};

use super::*;

// Zeros, with one entry.
fn one_entry(place: usize) -> [Cx; 64]
    requires { place < 64 }
    ensures { PairsWithin (2 ^ 30) result }
{
    let mut x = [Cx { re: 0, im: 0 }; 64];
    x[place] = Cx {
        re: 1048576,
        im: -1048575,
    };
    x
}

// Entries spread from -2^30 to 2^30.
fn spread_entries() -> [Cx; 64]
    ensures { PairsWithin (2 ^ 30) result }
{
    let mut x = [Cx { re: 0, im: 0 }; 64];
    for n in 0..64usize {
        x[n] = Cx {
            re: spread(n * 7919 + 13),
            im: spread(n * n * 10007 + n),
        };
    }
    x
}

// A number from -2^30 to 2^30.
fn spread(n: usize) -> i64
    ensures { unsigned_abs result ≤ 2 ^ 30 }
{
    ((n % 65536) as i64 - 32768) * 32768
}

// One entry as large as words take it, and zeros.
fn small_entry(place: usize) -> [Cx; 64]
    requires { place < 64 }
    ensures within { PairsWithin (2 ^ 30) result }
    ensures sizes { PairsOfSize (2 ^ 24) result }
{
    let mut x = [Cx { re: 0, im: 0 }; 64];
    x[place] = Cx {
        re: 8388608,
        im: -8388607,
    };
    x
}

// Entries spread from -2^23 to 2^23.
fn small_entries() -> [Cx; 64]
    ensures within { PairsWithin (2 ^ 30) result }
    ensures sizes { PairsOfSize (2 ^ 24) result }
{
    let mut x = [Cx { re: 0, im: 0 }; 64];
    for n in 0..64usize {
        x[n] = Cx {
            re: small(n * 7919),
            im: small(n * n * 10007),
        };
    }
    x
}

// A number from -2^23 to 2^23.
fn small(n: usize) -> i64
    ensures { unsigned_abs result ≤ 2 ^ 23 }
{
    ((n % 65536) as i64 - 32768) * 256
}

#[test]
fn words_and_pairs_agree(rt: HostRuntime) {
    for place in 0..64 {
        let x = small_entry(place);
        assert!(rt; up_words(&x) == up_scalar(&x));
        assert!(rt; down_words(&x) == down_scalar(&x));
    }
}

#[test]
fn words_of_the_greatest_sizes(rt: HostRuntime) {
    let x = small_entries();
    assert!(rt; up_words(&x) == up_scalar(&x));
    assert!(rt; down_words(&x) == down_scalar(&x));
}

#[test]
fn lanes_and_pairs_agree(rt: HostRuntime) {
    for place in 0..64 {
        let x = one_entry(place);
        assert!(rt; up(&x) == up_scalar(&x));
        assert!(rt; down(&x) == down_scalar(&x));
    }
}

// Places, and the pairs there of `up` and of `down` of the spread entries.
const ROWS: [(usize, Cx, Cx); 8] = [
    (
        0,
        Cx {
            re: -2974810112,
            im: -2990538752,
        },
        Cx {
            re: -2974810112,
            im: -2990538752,
        },
    ),
    (
        1,
        Cx {
            re: -3506725701,
            im: 3118706446,
        },
        Cx {
            re: -3473672192,
            im: 2204759496,
        },
    ),
    (
        2,
        Cx {
            re: 1281161353,
            im: 701333728,
        },
        Cx {
            re: -5003606628,
            im: -5111586108,
        },
    ),
    (
        7,
        Cx {
            re: -7331843333,
            im: -6117925231,
        },
        Cx {
            re: -6288658490,
            im: -13008641477,
        },
    ),
    (
        21,
        Cx {
            re: -3887645521,
            im: -3149598303,
        },
        Cx {
            re: 620869708,
            im: 1133697636,
        },
    ),
    (
        32,
        Cx {
            re: -1861222400,
            im: 11096031232,
        },
        Cx {
            re: -1861222400,
            im: 11096031232,
        },
    ),
    (
        42,
        Cx {
            re: 898319247,
            im: 764702635,
        },
        Cx {
            re: -4620763517,
            im: 1070720287,
        },
    ),
    (
        63,
        Cx {
            re: -3473671870,
            im: 2204760384,
        },
        Cx {
            re: -3506724358,
            im: 3118701749,
        },
    ),
];

#[test]
fn staged_sums(rt: HostRuntime) {
    let x = spread_entries();
    let (up, down) = (up(&x), down(&x));
    for (n, above, below) in ROWS {
        assert!(rt; n < 64);
        assert!(rt; up[n] == above);
        assert!(rt; down[n] == below);
    }
}
