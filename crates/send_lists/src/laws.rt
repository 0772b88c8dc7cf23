//! What holds of lists that are sent. The function does nothing: what it ensures is the law.
ghost use Rattle.send_lists.specs.Laws.{SentListsAreNear};

/// The samples of a list are within 1 of the list's frames at their starts, and (0, 0) elsewhere (own).
pub fn sent_lists_are_near()
    ensures { SentListsAreNear }
{
    frame_lists::laws::sent_lists_are_near();
}
