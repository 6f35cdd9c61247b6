// The table of numbers.
ghost use Rattle.std.specs.Prelude.{◌<◌};

// A number for each tag.
pub type Numbers = [u32; 256];

// A number that the runner counts becomes one more.
pub fn count(numbers: &mut Numbers, tag: usize)
    requires { tag < 256 }
{
    numbers[tag] = numbers[tag].wrapping_add(1);
}

// The number of 64 bits that has these halves.
pub fn hyper(high: u32, low: u32) -> u64 {
    high as u64 * 4294967296 + low as u64
}
