// The thing table.
ghost use Rattle.std.specs.Prelude.{◌≡◌, IfOk};
ghost use Rattle.made_rules.specs.Texts.{made_things};

use std::alloc::{AllocError, Global};

const TABLE: &[u8; 55] = b"type,sprite,frame,bright,hang,shadow\n2035,TREE,A,0,0,0\n";

/// The bytes of the made thing table: the header and one row, the tree.
///
/// Errors: `OutOfMemory` alone.
///
/// This project's own: the original has its things in tables of code.
#[tactic(auto, unfolding(made_rules::specs::Texts::made_things))]
pub fn make_things(alloc: Global) -> Result<Vec<u8>, AllocError>
    ensures { IfOk result (λ file. file.items ≡ made_things) }
{
    Vec::from_slice(alloc, TABLE)
}
