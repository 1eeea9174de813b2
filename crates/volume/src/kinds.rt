// A node's limit as the bytes of its row.
ghost use Rattle.std.specs.Prelude.{◌≡◌, ◌≤◌};
ghost use Rattle.volume.specs.Kinds.{limit_of, limit_flag};

// The limit that a flag byte and a limit word mean.
pub fn limit_of(flag: u8, word: u64) -> Option<u64>
    ensures { result ≡ limit_of flag word }
{
    match flag {
        0 => None,
        1..=255 => Some(word),
    }
}

// The flag byte of a limit.
pub fn limit_flag(limit: Option<u64>) -> u8
    ensures { (result ≡ limit_flag limit) × (result ≤ 1) }
{
    match limit {
        None => 0,
        Some(_) => 1,
    }
}
