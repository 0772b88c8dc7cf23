use crate::pilot_turn;
use carrier_equaliser::Estimate;
use fixed_complex::Cx;

// Where the channel gives nothing there is no turn.
#[test]
fn no_turn_of_silence(rt: HostRuntime) {
    let symbol = [Cx { re: 0, im: 0 }; 64];
    let turn = pilot_turn(&Estimate::silent(), &symbol, 0);
    assert_eq!(rt; turn, Cx { re: 16384, im: 0 });
}
