// How many entries and kept readings the lent slices hold: as many as the slice that holds the fewest.
#![tactic(auto)]

ghost use Rattle.std.specs.Prelude.{◌≡◌};
ghost use Rattle.places.specs.Places.{least, entry_places, kept_places};

// std's `min`. The name stays, since it is public.
pub fn smaller(a: usize, b: usize) -> usize
    ensures { result ≡ least a b }
{
    a.min(b)
}

// How many entries the stores below joins hold.
pub fn entry_places(hashes: usize, nexts: usize, sums: usize) -> u32
    ensures { result ≡ entry_places hashes nexts sums }
{
    hashes.min(nexts / 3).min(sums / 2).min(0x7fff_fff0) as u32
}

// How many kept readings their stores hold.
pub fn kept_places(hashes: usize, links: usize, sums: usize) -> usize
    ensures { result ≡ kept_places hashes links sums }
{
    hashes.min(links / 4).min(sums / 2).min(0x7fff_fff0)
}
