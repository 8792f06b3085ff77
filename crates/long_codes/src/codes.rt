// Which code begins the bits. The codes of one length are numbers in a row, and above those of all shorter ones with zeros behind them: the bits,
// as a number, tell the length.
ghost use Rattle.std.specs.Prelude.{◌≡◌, ℕ, ◌+◌, ◌-◌, ◌*◌, ◌/◌, ◌^◌, ◌<◌, ◌≤◌};
ghost use Rattle.long_codes.specs.Fronts.{by_rank, LongFront, LongCode};

use crate::symbol::long_symbol;
use short_codes::code::Symbol;

// The first numbers of 32 bits that begin with a code of more than 8, 15 and 24 bits, and with the end mark.
const ABOVE_8: u32 = 0xfe00_0000;

const ABOVE_15: u32 = 0xfffe_0000;

const ABOVE_24: u32 = 0xffff_f600;

const END_MARK: u32 = 0xffff_fffc;

// A size of more bits than can wait: where no byte is said.
const NO_BYTE: Symbol = Symbol { byte: 0, size: 64 };

// The byte of a code of more than 8 bits that begins `x`, and the code's size. Where another begins it, a size above what can wait.
pub fn long_code(x: u32) -> Symbol
    ensures { LongCode x (256 * result.byte + result.size) }
{
    if x < ABOVE_8 {
        return NO_BYTE;
    }
    if x < ABOVE_15 {
        return code_to_15(x);
    }
    if x < ABOVE_24 {
        return code_to_24(x);
    }
    if x < END_MARK {
        return code_to_30(x);
    }
    NO_BYTE
}

// Tests by hand, fewer for each code than a walk over a table of the lengths: tried, and all 256 bytes are counted in 16,735 instructions in place of 10,894.
fn code_to_15(x: u32) -> Symbol
    requires { (0xfe00_0000 ≤ x) × (x < 0xfffe_0000) }
    ensures { LongFront x (256 * result.byte + result.size) }
{
    if x < 0xff40_0000 {
        return code_at(x, 10, 1_016);
    }
    if x < 0xffa0_0000 {
        return code_at(x, 11, 2_037);
    }
    if x < 0xffc0_0000 {
        return code_at(x, 12, 4_082);
    }
    if x < 0xfff0_0000 {
        return code_at(x, 13, 8_174);
    }
    if x < 0xfff8_0000 {
        return code_at(x, 14, 16_364);
    }
    code_at(x, 15, 32_746)
}

fn code_to_24(x: u32) -> Symbol
    requires { (0xfffe_0000 ≤ x) × (x < 0xffff_f600) }
    ensures { LongFront x (256 * result.byte + result.size) }
{
    if x < 0xfffe_6000 {
        return code_at(x, 19, 524_251);
    }
    if x < 0xfffe_e000 {
        return code_at(x, 20, 1_048_526);
    }
    if x < 0xffff_4800 {
        return code_at(x, 21, 2_097_084);
    }
    if x < 0xffff_b000 {
        return code_at(x, 22, 4_194_213);
    }
    if x < 0xffff_ea00 {
        return code_at(x, 23, 8_388_497);
    }
    code_at(x, 24, 16_777_094)
}

fn code_to_30(x: u32) -> Symbol
    requires { (0xffff_f600 ≤ x) × (x < 0xffff_fffc) }
    ensures { LongFront x (256 * result.byte + result.size) }
{
    if x < 0xffff_f800 {
        return code_at(x, 25, 33_554_300);
    }
    if x < 0xffff_fbc0 {
        return code_at(x, 26, 67_108_716);
    }
    if x < 0xffff_fe20 {
        return code_at(x, 27, 134_217_563);
    }
    if x < 0xffff_fff0 {
        return code_at(x, 28, 268_435_276);
    }
    code_at(x, 30, 1_073_741_641)
}

// The byte and the size, if the codes of this size are `skipped` above their ranks.
fn code_at(x: u32, size: u8, skipped: u32) -> Symbol
    requires { (1 ≤ size) × (size ≤ 30) × (skipped ≤ x / 2 ^ (32 - size)) }
    ensures { (result.byte ≡ by_rank (x / 2 ^ (32 - size) - skipped)) × (result.size ≡ size) }
{
    Symbol {
        byte: long_symbol((x >> (32 - size as u32)) - skipped),
        size,
    }
}
