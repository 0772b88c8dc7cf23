//! What holds of exact decisions. The function does nothing: what it ensures is the law.

ghost use Rattle.exact_decisions.specs.Laws.{SentIsHeard};

/// Decisions of any kind, in code order, that are for each symbol the coded bits that were sent say the frame's header,
/// and have its seed and its PSDU as their field (own).
pub fn sent_decisions_are_heard()
    ensures { SentIsHeard }
{}
