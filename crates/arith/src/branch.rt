// Format 5: when a branch is taken. Seven conditions and one reversal; BR stands alone.
ghost use Rattle.std.specs.Prelude.{◌≡◌};
ghost use Rattle.arith.specs.Branch as Spec;

use wordmath::Flags;

// The seven conditions, each for the even high byte; beside it stands its pair.
fn condition(pair: u16, f: Flags) -> bool
    ensures { result ≡ Spec.condition pair f }
{
    match pair {
        0 => !f.z, // 02 BNE, 03 BEQ
        1 => !(f.n ^ f.v), // 04 BGE, 05 BLT
        2 => !(f.z | (f.n ^ f.v)), // 06 BGT, 07 BLE
        3 => !f.n, // 80 BPL, 81 BMI
        4 => !(f.c | f.z), // 82 BHI, 83 BLOS
        5 => !f.v, // 84 BVC, 85 BVS
        6 => !f.c, // 86 BCC, 87 BCS
        _ => false, // past the table
    }
}

// Whether the branch k is taken: BR always, and an odd high byte reverses the condition of the even one before it.
pub fn holds(k: u16, f: Flags) -> bool
    ensures { result ≡ Spec.branch_taken k f }
{
    if k < 2 {
        return true;
    }
    condition(k / 2 - 1, f) ^ (k % 2 == 1)
}
