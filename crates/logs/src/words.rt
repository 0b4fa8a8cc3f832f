// Words of 16 bits, low byte first, at a place of a slice of bytes.
ghost use Rattle.std.specs.Prelude.{◌≡◌, ◌+◌, ◌<◌, length};
ghost use Rattle.logs.specs.Words.{put, word};

pub(crate) fn word_at(bytes: &[u8], place: usize) -> u16
    requires { place + 1 < length bytes.now }
    ensures { result ≡ word bytes.now place }
{
    u16::from_le_bytes([bytes[place], bytes[place + 1]])
}

pub(crate) fn put_word(bytes: &mut [u8], place: usize, value: u16)
    requires { place + 1 < length bytes.old }
    ensures { bytes.new ≡ put bytes.old place value }
{
    let [low, high] = value.to_le_bytes();
    bytes[place] = low;
    bytes[place + 1] = high;
}
