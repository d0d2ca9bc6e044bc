// The decoder's reading list, of the finished table.
#![tactic(auto)]

ghost use Rattle.std.specs.Prelude.{◌-◌, ◌/◌, [], ◌∷◌, length};
ghost use Rattle.places.specs.Places.{entry_places, kept_places};
ghost use Rattle.reading_list.specs.Outputs.{outputs as listOutputs};
ghost use Rattle.reading_list.specs.Scratch.{scratch as listScratch};
ghost use Rattle.decoder.specs.Promises.{ReadingsLeft, ReadingsIs};

use decoder::Decoder;
use refusals::Reason;

// The reading list, the first `max` of it traced, into lent words, frames, segments, five numbers and four costs for each reading. The lists below joins and the kept readings are lent too.
pub fn reading_list(
    tokens: &[u32],
    sums: &[f32],
    records: &[u32],
    labels: &[i32],
    gaps: &[f32],
    finals: &[f32],
    decoder: Decoder,
    use_final: bool,
    listed: usize,
    max: usize,
    keys: &mut [u64],
    places: &mut [u32],
    own: &mut [u32],
    heads: &mut [u32],
    list: &mut [u32],
    lists: &mut [u32],
    route: &mut [u32],
    history_keys: &mut [u64],
    history_skips: &mut [u32],
    entry_hashes: &mut [u64],
    entry_nexts: &mut [u32],
    entry_sums: &mut [f32],
    kept_hashes: &mut [u64],
    kept_links: &mut [u32],
    kept_sums: &mut [f32],
    order: &mut [u32],
    words: &mut [i32],
    frames: &mut [u32],
    segments: &mut [u32],
    numbers: &mut [u64],
    costs: &mut [f32],
) -> Result<usize, Reason>
    requires { ReadingsLeft tokens.now sums.now records.now labels.now gaps.now finals.now (length keys.old ∷ length places.old ∷ length own.old ∷ length heads.old ∷ length list.old ∷ []) (length lists.old / 2 ∷ length route.old ∷ length history_keys.old / 2 ∷ length history_skips.old / 2 ∷ []) (kept_places (length kept_hashes.old) (length kept_links.old) (length kept_sums.old)) (length keys.old ∷ length order.old ∷ (length list.old - decoder.graph.states) ∷ []) decoder }
    ensures { ReadingsIs tokens.now sums.now records.now labels.now gaps.now finals.now decoder use_final listed max (entry_places (length entry_hashes.old) (length entry_nexts.old) (length entry_sums.old)) (kept_places (length kept_hashes.old) (length kept_links.old) (length kept_sums.old)) (listScratch keys.old places.old own.old heads.old list.old lists.old route.old history_keys.old history_skips.old entry_hashes.old entry_nexts.old entry_sums.old kept_hashes.old kept_links.old kept_sums.old order.old) (listScratch keys.new places.new own.new heads.new list.new lists.new route.new history_keys.new history_skips.new entry_hashes.new entry_nexts.new entry_sums.new kept_hashes.new kept_links.new kept_sums.new order.new) (listOutputs words.old frames.old segments.old numbers.old costs.old) (listOutputs words.new frames.new segments.new numbers.new costs.new) result }
{
    let side = 1 - decoder.side;
    reading_list::readings(
        tokens,
        sums,
        finals,
        records,
        labels,
        gaps,
        decoder.graph.states,
        side,
        decoder.used,
        decoder.frames,
        decoder.keeps,
        decoder.margin,
        use_final,
        listed,
        max,
        keys,
        places,
        own,
        heads,
        list,
        lists,
        route,
        history_keys,
        history_skips,
        entry_hashes,
        entry_nexts,
        entry_sums,
        kept_hashes,
        kept_links,
        kept_sums,
        order,
        words,
        frames,
        segments,
        numbers,
        costs,
    )
}
