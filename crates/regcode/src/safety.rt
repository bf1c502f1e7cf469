//! What verified code never meets.
#![tactic(auto)]

ghost use Rattle.regcode.specs.Listing.{Listing};
ghost use Rattle.regcode.specs.Rules.{IsVerified};
ghost use Rattle.regcode.specs.Safety.{NeverSticks};

/// Verified code never meets a register or an entry that isn't in its tables, a register of a wrong kind, a private
/// array without the room for its elements, a jump out of the code, or a jump to itself or backward that doesn't go to
/// a turn of a loop, whatever the launch, the item and the answers. It ends only at its end: to read a register that is
/// unset is the fault with the register's name, which is in the table of names.
pub fn never_sticks()
    ensures { (code : Listing) → IsVerified code → NeverSticks code }
{}
