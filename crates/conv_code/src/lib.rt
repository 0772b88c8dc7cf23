//! The convolutional code of rate 1/2 (IEEE Std 802.11-2012, 18.3.5.6).
#![tactic(auto)]

ghost use Rattle.std.specs.Prelude.{◌≡◌, ◌<◌, ◌+◌, ◌-◌, ◌*◌, ◌++◌, ℕ, List, length, replicate, slice_index, IfOk};
ghost use Rattle.bit_lists.specs.Bits.{AreBits, IsBit};
ghost use Rattle.std.specs.Int.{bit_at};
ghost use Rattle.conv_code.specs.Code.{Codes, code_of, parity_a, parity_b};
ghost use Rattle.conv_code.specs.States.{branch_a, branch_b, state_after, state_before};

use std::alloc::{AllocError, Global};

pub mod laws;

/// The code of a list of bits, each 0 or 1: for each bit the two parities, A before B, the bits before the first
/// being 0 (IEEE Std 802.11-2012, 18.3.5.6). The only error is want of memory.
pub fn encode(alloc: Global, bits: &[u8]) -> Result<Vec<u8>, AllocError>
    requires { AreBits bits.now }
    ensures codes { IfOk result (λ code. Codes code.items bits.now) }
    ensures list { IfOk result (λ code. code.items ≡ code_of bits.now) }
    ensures bits { IfOk result (λ code. AreBits code.items) }
{
    let mut inputs = vec![in alloc; 0u8; 6]?;
    inputs.extend_from_slice(bits)?;
    let mut code = vec![in alloc; 0u8; 2 * bits.len()]?;
    put_code(&inputs, &mut code);
    Ok(code)
}

// Writes the code of a list of bits, which stands behind six zeros.
fn put_code(inputs: &[u8], code: &mut [u8])
    requires bits { AreBits inputs.now }
    requires places { length code.old + 12 ≡ 2 * length inputs.now }
    ensures { (u : List ℕ) → inputs.now ≡ replicate 6 0 ++ u → code.new ≡ code_of u }
{
    for i in 0..code.len() / 2 {
        code[2 * i] = inputs[i + 6] ^ inputs[i + 4] ^ inputs[i + 3] ^ inputs[i + 1] ^ inputs[i];
        code[2 * i + 1] = inputs[i + 6] ^ inputs[i + 5] ^ inputs[i + 4] ^ inputs[i + 3] ^ inputs[i];
    }
}

/// A and B of a step with an input bit from a state, 0 to 63, whose bit j is the input j + 1 steps ago (A and B: IEEE
/// Std 802.11-2012, 18.3.5.6; the state's number is own). Takes no memory.
pub fn branch(state: u8, bit: u8) -> (u8, u8)
    requires state { state < 64 }
    requires bit { IsBit bit }
    ensures a { result.0 ≡ branch_a state bit }
    ensures b { result.1 ≡ branch_b state bit }
    ensures a_is_bit { IsBit result.0 }
    ensures b_is_bit { IsBit result.1 }

    // along a list: at the state before a place and the bit of that place, the two parities of the place
    ensures a_along { (u : List ℕ) (i : ℕ) → AreBits u → i < length u → state ≡ state_before u i
        → bit ≡ slice_index u i → result.0 ≡ parity_a u i }
    ensures b_along { (u : List ℕ) (i : ℕ) → AreBits u → i < length u → state ≡ state_before u i
        → bit ≡ slice_index u i → result.1 ≡ parity_b u i }
{
    let one = input_ago(state, 1);
    let two = input_ago(state, 2);
    let three = input_ago(state, 3);
    let five = input_ago(state, 5);
    let six = input_ago(state, 6);
    let a = bit ^ two ^ three ^ five ^ six;
    let b = bit ^ one ^ two ^ three ^ six;
    (a, b)
}

/// The state after a step with an input bit from a state, 0 to 63 (own). Takes no memory.
pub fn next_state(state: u8, bit: u8) -> u8
    requires state { state < 64 }
    requires bit { IsBit bit }
    ensures after { result ≡ state_after state bit }
    ensures after_along { (u : List ℕ) (i : ℕ) → AreBits u → i < length u → state ≡ state_before u i
        → bit ≡ slice_index u i → result ≡ state_before u (i + 1) }
    ensures below_64 { result < 64 }
{
    ((state << 1) | bit) & 63
}

// The input so many steps ago, 1 to 6, that a state holds.
fn input_ago(state: u8, steps: u8) -> u8
    requires at_least_one { 0 < steps }
    requires at_most_six { steps < 7 }
    ensures value { result ≡ bit_at state (steps - 1) }
    ensures bit { IsBit result }
{
    (state >> (steps - 1)) & 1
}

#[cfg(test)]
mod tests {
    use super::*;
    use std::test::Fail;

    // The SIGNAL bits of a frame of 100 octets at 36 Mb/s.
    #[test]
    fn code_of_a_header(rt: HostRuntime) -> Result<(), Fail> {
        let bits = [
            1, 0, 1, 1, 0, 0, 0, 1, 0, 0, 1, 1, 0, 0, 0, 0, 0, 0, 0, 0, 0, 0, 0, 0,
        ];
        let code = [
            1, 1, 0, 1, 0, 0, 0, 1, 1, 0, 1, 0, 0, 0, 0, 1, 0, 0, 0, 0, 0, 0, 1, 0, 0, 0, 1, 1, 1,
            1, 1, 0, 0, 1, 1, 1, 0, 0, 0, 0, 0, 0, 0, 0, 0, 0, 0, 0,
        ];
        let encoded = encode(rt.alloc(), &bits)?;
        assert_eq!(rt; encoded.as_slice(), code.as_slice());
        Ok(())
    }
}
