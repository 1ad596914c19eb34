ghost use Rattle.std.specs.Prelude.{◌≡◌, ◌+◌, ◌*◌, ◌<◌, ◌≤◌};
ghost use Rattle.sd_section.specs.Steps.{steps, byte_register};

// All exclusive-ors of eight registers, of which each is that of one bit: the register of a byte is that of its bits.
macro_rules! of_bits {
    ([$($register:expr),+]) => { [$($register),+] };
    ([$($register:expr),+] $bit:literal $($more:literal)*) => {
        of_bits!([$($register),+, $($register ^ $bit),+] $($more)*)
    };
}

static REGISTERS: [[u32; 256]; 8] = [
    of_bits!([0] 0x04C1_1DB7 0x0982_3B6E 0x1304_76DC 0x2608_EDB8 0x4C11_DB70 0x9823_B6E0 0x3486_7077 0x690C_E0EE),
    of_bits!([0] 0xD219_C1DC 0xA0F2_9E0F 0x4524_21A9 0x8A48_4352 0x1051_9B13 0x20A3_3626 0x4146_6C4C 0x828C_D898),
    of_bits!([0] 0x01D8_AC87 0x03B1_590E 0x0762_B21C 0x0EC5_6438 0x1D8A_C870 0x3B15_90E0 0x762B_21C0 0xEC56_4380),
    of_bits!([0] 0xDC6D_9AB7 0xBC1A_28D9 0x7CF5_4C05 0xF9EA_980A 0xF714_2DA3 0xEAE9_46F1 0xD113_9055 0xA6E6_3D1D),
    of_bits!([0] 0x490D_678D 0x921A_CF1A 0x20F4_8383 0x41E9_0706 0x83D2_0E0C 0x0365_01AF 0x06CA_035E 0x0D94_06BC),
    of_bits!([0] 0x1B28_0D78 0x3650_1AF0 0x6CA0_35E0 0xD940_6BC0 0xB641_CA37 0x6842_89D9 0xD085_13B2 0xA5CB_3AD3),
    of_bits!([0] 0x4F57_6811 0x9EAE_D022 0x399C_BDF3 0x7339_7BE6 0xE672_F7CC 0xC824_F22F 0x9488_F9E9 0x2DD0_EE65),
    of_bits!([0] 0x5BA1_DCCA 0xB743_B994 0x6A46_6E9F 0xD48C_DD3E 0xADD8_A7CB 0x5F70_5221 0xBEE0_A442 0x7900_5533),
];

/// The CRC register after one byte from an empty register, followed by `after` bytes of zeros; `after` is below 8.
#[inline]
#[tactic(auto, using(crate::proofs::Rows::entry))]
pub fn of_byte(byte: u8, after: usize) -> u32
    requires { after < 8 }
    ensures { result ≡ byte_register after byte }
{
    REGISTERS[after][usize::from(byte)]
}

/// The CRC register after four bytes from an empty register, followed by `after` bytes of zeros, at most 4.
#[inline]
#[tactic(auto, using(crate::proofs::Words::of_bytes))]
pub fn of_word(word: u32, after: usize) -> u32
    requires { after ≤ 4 }
    ensures { result ≡ steps (8 * after + 32) word }
{
    let [first, second, third, fourth] = word.to_be_bytes();
    of_byte(first, after + 3)
        ^ of_byte(second, after + 2)
        ^ of_byte(third, after + 1)
        ^ of_byte(fourth, after)
}
