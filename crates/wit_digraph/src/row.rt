//! Rows of bits in words of 64.
ghost use Rattle.std.specs.Prelude.{◌≡◌, ◌≢◌, ◌↔◌, ℕ, ◌*◌, ◌<◌, IsTrue, length};
ghost use Rattle.wit_digraph.specs.steps.Rows.{HasBit, bit_of};

/// Whether the row has bit `i`, which is one of its words' bits.
pub fn has_bit(row: &[u64], i: usize) -> bool
    requires { i < 64 * length row.now }
    ensures { IsTrue result ↔ HasBit row.now i }
{
    (row[i / 64] >> (i % 64)) & 1 == 1
}

/// Gives the row bit `i`, which is one of its words' bits. All other bits stay.
pub fn set_bit(row: &mut [u64], i: usize)
    requires { i < 64 * length row.old }
    ensures set { HasBit row.new i }
    ensures others { (k : ℕ) → k ≢ i → bit_of row.new k ≡ bit_of row.old k }
{
    row[i / 64] |= 1 << (i % 64);
}
