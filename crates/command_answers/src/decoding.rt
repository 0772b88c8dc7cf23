//! What `decode` and `decode-soft` write.
ghost use Rattle.std.specs.Prelude.{◌≡◌, ◌⊎◌, ◌≤◌, ℕ, length, IfOk, IfErr};
ghost use Rattle.bit_lists.specs.Bits.{AreBits};
ghost use Rattle.bit_lists.specs.Text.{IsBadPlace, IsTextOf};
ghost use Rattle.command_answers.specs.Answers.{bytes_of_answer};
ghost use Rattle.command_answers.specs.Decoding.{DecodeOutcome, SoftOutcome};
ghost use Rattle.command_answers.specs.InOrder.{Refuses, Writes};
ghost use Rattle.modem_ports.specs.Limits.{most_input};
ghost use Rattle.rate_table.specs.Symbols.{IsLength};
ghost use Rattle.report_lines.specs.Refusals.{answering, step_of};
ghost use Rattle.soft_trellis.specs.Text as digits;
ghost use Rattle.soft_trellis.specs.Values.{AreValues};

use crate::answers::Answer;
use bit_lists::{TextFault, read_text};
use modem_links::decode_field;
use modem_ports::Steps;
use rate_table::Rate;
use report_lines::Refusal;
use soft_trellis::{CostFault, decode_soft, read_costs};
use std::alloc::Global;

// The octets of the nearest field of a text of bits.
pub fn decoded(
    alloc: Global,
    rate: Rate,
    octets: u16,
    text: &[u8],
    steps: &mut Steps,
) -> Result<Answer, Refusal>
    requires octets { IsLength octets }
    requires most { length text.now ≤ most_input }
    ensures ok { IfOk result (λ answer.
        DecodeOutcome rate octets text.now (Writes (bytes_of_answer answer))) }
    ensures refused { IfErr result (λ refusal. (refusal ≡ Refusal.NoMemory)
        ⊎ ((step_of refusal ≡ answering) × DecodeOutcome rate octets text.now (Refuses refusal))) }
{
    let bits = bits_in_text(alloc, text)?;
    let need = rate.symbols(octets) as usize * rate.coded_bits();
    if bits.len() != need {
        return Err(Refusal::BitCount {
            have: bits.len() as u32,
            need: need as u32,
        });
    }
    let field = decode_field(alloc, rate, octets, &bits, steps)?;
    Ok(Answer::Bytes(field.psdu.into_vec()))
}

// The octets of the soft field of a text of costs.
pub fn soft_decoded(
    alloc: Global,
    rate: Rate,
    octets: u16,
    text: &[u8],
    steps: &mut Steps,
) -> Result<Answer, Refusal>
    requires octets { IsLength octets }
    requires most { length text.now ≤ most_input }
    ensures ok { IfOk result (λ answer.
        SoftOutcome rate octets text.now (Writes (bytes_of_answer answer))) }
    ensures refused { IfErr result (λ refusal. (refusal ≡ Refusal.NoMemory)
        ⊎ ((step_of refusal ≡ answering) × SoftOutcome rate octets text.now (Refuses refusal))) }
{
    let costs = costs_in_text(alloc, text)?;
    let need = rate.symbols(octets) as usize * rate.coded_bits();
    if costs.len() != need {
        return Err(Refusal::CostCount {
            have: costs.len() as u32,
            need: need as u32,
        });
    }
    let field = decode_soft(alloc, rate, octets, &costs, steps)?;
    Ok(Answer::Bytes(field.psdu.into_vec()))
}

// The bits of a text.
fn bits_in_text(alloc: Global, text: &[u8]) -> Result<Vec<u8>, Refusal>
    ensures read { IfOk result (λ bits. IsTextOf text.now bits.items) }
    ensures bits { IfOk result (λ bits. AreBits bits.items) }
    ensures bad { IfErr result (λ refusal. (refusal ≡ Refusal.NoMemory)
        ⊎ ((at : ℕ) × (refusal ≡ Refusal.BadBit at) × IsBadPlace text.now at)) }
{
    match read_text(alloc, text) {
        Ok(bits) => Ok(bits),
        Err(TextFault::BadBit { at }) => Err(Refusal::BadBit { at }),
        Err(TextFault::NoMemory(_)) => Err(Refusal::NoMemory),
    }
}

// The costs of a text.
fn costs_in_text(alloc: Global, text: &[u8]) -> Result<Vec<u8>, Refusal>
    ensures read { IfOk result (λ costs. digits.IsTextOf text.now costs.items) }
    ensures costs { IfOk result (λ costs. AreValues costs.items) }
    ensures bad { IfErr result (λ refusal. (refusal ≡ Refusal.NoMemory)
        ⊎ ((at : ℕ) × (refusal ≡ Refusal.BadCost at) × digits.IsBadPlace text.now at)) }
{
    match read_costs(alloc, text) {
        Ok(costs) => Ok(costs),
        Err(CostFault::BadCost { at }) => Err(Refusal::BadCost { at }),
        Err(CostFault::NoMemory(_)) => Err(Refusal::NoMemory),
    }
}
