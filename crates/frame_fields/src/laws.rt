//! What holds of fields of decisions and of frames. Its functions do nothing: what each ensures is the law.
ghost use Rattle.std.specs.Prelude.{◌≡◌, ◌<◌, ◌≤◌, ℕ, ◌+◌, ◌*◌, ◌%◌, List, length};
ghost use Rattle.fixed_complex.specs.PairLists.{entry};
ghost use Rattle.fixed_complex.specs.Samples.{sample_at, SamplesWithin};
ghost use Rattle.frame_fields.specs.Frames.{frame_bin, plain_frame, sent_frame};
ghost use Rattle.frame_fields.specs.Laws.{FewFlips, OneField, SomeField};
ghost use Rattle.rate_table.specs.Table.{row_of};
ghost use Rattle.rate_table.specs.declared.Rate.{Rate};
ghost use Rattle.rate_table.specs.Symbols.{symbol_count};
ghost use Rattle.plain_waves.specs.Bodies.{plain_body, sent_body};
ghost use Rattle.plain_waves.specs.Nearness.{AreNearPlain};
ghost use Rattle.training_fields.specs.Training.{preamble_of};

/// Decisions have a field, and only one (own).
pub fn one_field()
    ensures some { SomeField }
    ensures no_other { OneField }
{}

/// Where at most `flip_bound` decisions differ from the kept code of a field, up to its tail, the field of the decisions
/// is that one, and its distance is the number of those flips (own).
pub fn few_flips()
    ensures { FewFlips }
{}

/// How long a frame is, and where its parts stand: the preamble from 0 on, and symbol n from 320 + 80 n on, so SIGNAL at
/// 320 and DATA symbol m at 400 + 80 m (IEEE Std 802.11-2012, 18.3.2.1).
pub fn places_of_a_frame()
    ensures sent_length { (rate : Rate) (seed : ℕ) (psdu : List ℕ)
        → length (sent_frame rate seed psdu)
        ≡ 400 + 80 * symbol_count (row_of rate).field_bits (length psdu) }
    ensures plain_length { (rate : Rate) (seed : ℕ) (psdu : List ℕ)
        → length (plain_frame rate seed psdu)
        ≡ 400 + 80 * symbol_count (row_of rate).field_bits (length psdu) }
    ensures sent_preamble { (rate : Rate) (seed : ℕ) (psdu : List ℕ) (t : ℕ) → t < 320
        → sample_at (sent_frame rate seed psdu) t ≡ sample_at (preamble_of sent_body) t }
    ensures plain_preamble { (rate : Rate) (seed : ℕ) (psdu : List ℕ) (t : ℕ) → t < 320
        → entry (plain_frame rate seed psdu) t ≡ entry (preamble_of plain_body) t }
    ensures sent_symbols { (rate : Rate) (seed : ℕ) (psdu : List ℕ) (n t : ℕ)
        → n ≤ symbol_count (row_of rate).field_bits (length psdu) → t < 80
        → sample_at (sent_frame rate seed psdu) (320 + 80 * n + t)
        ≡ sent_body (frame_bin rate seed psdu n) ((t + 48) % 64) }
    ensures plain_symbols { (rate : Rate) (seed : ℕ) (psdu : List ℕ) (n t : ℕ)
        → n ≤ symbol_count (row_of rate).field_bits (length psdu) → t < 80
        → entry (plain_frame rate seed psdu) (320 + 80 * n + t)
        ≡ plain_body (frame_bin rate seed psdu n) ((t + 48) % 64) }
{}

/// The sent samples of every frame are within 1 of its plain waveform, and no component is larger than 25057 in size
/// (own).
pub fn sent_frames()
    ensures near { (rate : Rate) (seed : ℕ) (psdu : List ℕ)
        → AreNearPlain 1 (sent_frame rate seed psdu) (plain_frame rate seed psdu) }
    ensures within { (rate : Rate) (seed : ℕ) (psdu : List ℕ)
        → SamplesWithin 25057 (sent_frame rate seed psdu) }
{}
