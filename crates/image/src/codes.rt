// An answer as one number, and settings as one number, for programs in other languages.
ghost use Rattle.std.specs.Prelude.{◌≡◌};
ghost use Rattle.spec.specs.Answer.{answer_code};
ghost use Rattle.spec.specs.Build.{settings_from};
ghost use Rattle.image.specs.Header.{asked};
ghost use Rattle.image.specs.Outcomes.{answer_of};
ghost use Rattle.image.specs.Refusals.{by_number};

use super::Settings;
use super::refusals::Refusal;

// 2^32: what the number of a refusal is multiplied with where an answer is one number.
pub const REFUSAL_WEIGHT: u64 = 4294967296;

// How many values a byte has.
const BYTE: u64 = 256;

// What the dense levels are multiplied with where settings are one number.
const DENSE_LEVELS_WEIGHT: u64 = 256;

// What the real bits are multiplied with there.
const REAL_WIDTH_WEIGHT: u64 = 65536;

// What the hash bits are multiplied with there.
const HASH_WIDTH_WEIGHT: u64 = 16777216;

// An answer, in which a refusal is given by its number.
pub fn by_number(answer: Result<usize, Refusal>) -> Result<usize, u32>
    ensures { result ≡ by_number answer }
{
    match answer {
        Ok(written) => Ok(written),
        Err(refusal) => Err(refusal.number()),
    }
}

// An answer as one number: the number of a refusal, 0 for success, times 2^32, plus the bytes written, 0 for a refusal.
pub fn code(answer: Result<usize, u32>) -> u64
    ensures { result ≡ answer_code (answer_of answer) }
{
    match answer {
        Ok(written) => written as u64,
        Err(number) => u64::from(number) * REFUSAL_WEIGHT,
    }
}

// The settings that a number stands for: its bytes, the low one first, are the version, the dense levels, the real bits and the hash bits. What is more than four bytes counts to the hash bits, so that it is refused as out of range.
pub fn settings_of(number: u64) -> Settings
    ensures { asked result ≡ settings_from number }
{
    Settings {
        version: (number % BYTE) as usize,
        dense_levels: (number / DENSE_LEVELS_WEIGHT % BYTE) as usize,
        real_width: (number / REAL_WIDTH_WEIGHT % BYTE) as usize,
        hash_width: (number / HASH_WIDTH_WEIGHT) as usize,
    }
}
