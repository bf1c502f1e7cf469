//! The law of wide replies.
#![tactic(auto)]

ghost use Rattle.wide_launches.specs.Replies.{RepliesAreWide};

use lower::code_laws::acts_as_the_tree;
use widening::laws::clean_is_wide;

/// Where the verdict of a kernel's launch is wide, the machine's reply to it is the same for all bytes and all numbers
/// that are free (OpenCL 1.2, sections 3.2 and 3.3.1).
pub fn replies_are_wide()
    ensures { RepliesAreWide }
{
    acts_as_the_tree();
    clean_is_wide();
}
