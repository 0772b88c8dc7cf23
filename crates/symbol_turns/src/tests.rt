use crate::turn_symbols;
use fixed_complex::Sample;

// A quarter turn, of the one sample behind the preamble.
#[test]
fn a_quarter_turn(rt: HostRuntime) {
    let silence = Sample { i: 0, q: 0 };
    let mut samples = [silence; 321];
    samples[320] = Sample { i: 100, q: 7 };
    turn_symbols(0, 16, &mut samples);
    for place in 0..320 {
        assert_eq!(rt; samples[place], silence);
    }
    assert_eq!(rt; samples[320], Sample { i: -7, q: 100 });
}
