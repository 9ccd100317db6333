// Whole numbers, their sign and size, and as words in two's complement.
ghost use Rattle.std.specs.Prelude.{◌≡◌, nat_abs};
ghost use Rattle.std.specs.Int.{w64};
ghost use Rattle.std.proofs.Common.{to_z, of_z};
ghost use Rattle.base_numbers.specs.TwosComplement.{below_zero};

// The number is below zero.
pub fn is_below_zero(count: i64) -> bool
    ensures { result ≡ below_zero count }
{
    count < 0
}

// The size of a number, without its sign.
pub fn size_of(count: i64) -> u64
    ensures { result ≡ nat_abs count }
{
    count.unsigned_abs()
}

// The word that a number is in two's complement.
pub fn word_of(count: i64) -> u64
    ensures { result ≡ of_z w64 count }
{
    count.cast_unsigned()
}

// The number that a word is in two's complement.
pub fn count_of(word: u64) -> i64
    ensures { result ≡ to_z w64 word }
{
    word.cast_signed()
}
