// nx_link will take its place.

ghost use Rattle.std.specs.Prelude.{◌≡◌, ◌+◌, ◌<◌, ◌^◌};
ghost use Rattle.nx_top.specs.first.Layout.{page_up, data_start};

/// The bytes of the RAM.
pub const RAM_BYTES: u32 = 4_194_304;

/// The address at which the texts begin: after the pool of 4096 blocks of 64 bytes.
pub const TEXT_START: u32 = 0x8004_0000;

/// The bytes of a thread's stack.
pub const STACK_BYTES: u32 = 8192;

/// How many threads may live.
pub const THREADS: u32 = 16;

/// Rounded up to a page of 4096 bytes.
fn page_up(bytes: u32) -> u32
    requires { bytes < 2 ^ 31 }
    ensures value { result ≡ page_up bytes }
    ensures small { result < bytes + 4096 }
{
    (bytes + 4095) / 4096 * 4096
}

/// The address of the data after a text of that many bytes.
pub fn data_start(text_length: u32) -> u32
    requires { text_length < 2 ^ 20 }
    ensures value { result ≡ data_start text_length }
    ensures small { result < 2 ^ 31 + 2 ^ 22 }
{
    TEXT_START + page_up(text_length)
}
