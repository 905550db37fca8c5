// Hashes sorted where they lie: what filter building does first, by itself.
ghost use Rattle.kiban_c.specs.SortCalls.{SortCall};

// Sorts the hashes; 0.
pub fn kiban_sort(hashes: &mut [u64]) -> u64
    ensures { SortCall hashes.old result hashes.new }
{
    sort::sort(hashes);
    0
}
