ghost use Rattle.std.specs.Prelude.{◌≤◌};

use crate::{is_edge, matches_template, next_edge};
use fixed_complex::Sample;
use modem_ports::Steps;
use training_fields::preamble;

const SILENCE: Sample = Sample { i: 0, q: 0 };

const LOUD: Sample = Sample { i: 0, q: -257 };

// A capture of 400 samples with the sent training fields from a place on.
fn capture_at(start: usize) -> [Sample; 400]
    requires { start ≤ 80 }
{
    let mut capture = [SILENCE; 400];
    let preamble = preamble();
    for n in 0..320 {
        capture[start + n] = preamble[n];
    }
    capture
}

#[test]
fn edge_and_match_of_sent_training_fields(rt: HostRuntime) {
    let capture = capture_at(57);
    let mut steps = Steps::new();
    assert_eq!(rt; next_edge(&capture, 0, &mut steps), Some(57));
    assert_eq!(rt; steps.count(), 58);
    assert!(rt; matches_template(&capture, 57, &mut steps));
    assert!(rt; !matches_template(&capture, 58, &mut steps));
    assert_eq!(rt; steps.count(), 698);
}

#[test]
fn no_edge_where_all_is_quiet(rt: HostRuntime) {
    let quiet = [Sample { i: 256, q: -256 }; 40];
    let mut steps = Steps::new();
    assert_eq!(rt; next_edge(&quiet, 3, &mut steps), None);
    assert_eq!(rt; steps.count(), 37);
}

// Loud samples everywhere: the first place alone is an edge, and nothing matches.
#[test]
fn hostile_capture(rt: HostRuntime) {
    let hostile = [Sample {
        i: -32768,
        q: 32767,
    }; 400];
    let mut steps = Steps::new();
    assert_eq!(rt; next_edge(&hostile, 0, &mut steps), Some(0));
    assert_eq!(rt; next_edge(&hostile, 1, &mut steps), None);
    assert_eq!(rt; steps.count(), 400);
    assert!(rt; !matches_template(&hostile, 80, &mut steps));
}

// Behind a loud sample the next edge is 17 places on at least.
#[test]
fn edges_seventeen_apart(rt: HostRuntime) {
    let mut capture = [SILENCE; 40];
    capture[2] = LOUD;
    capture[18] = LOUD;
    capture[35] = LOUD;
    assert!(rt; is_edge(&capture, 2));
    assert!(rt; !is_edge(&capture, 18));
    assert!(rt; is_edge(&capture, 35));
}
