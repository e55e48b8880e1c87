// The answer to the question whether a verdict may be left as it is when the records of one owner are edited. The rules for it are in specs/.
#![tactic(auto)]

use spec_refusal::Refusal;

#[derive(Clone, Copy)]
pub enum Edited {
    // The verdict may be left: no edit of that owner's records can change it.
    MayBeLeft,
    // The verdict is to be made again.
    Redo,
    Refused(Refusal),
    // The owner is not one valid name and nothing else. This is the refusal 17, place 0.
    BadOwner,
}
