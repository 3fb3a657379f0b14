// A cache of translations: the test of a hit, the load of a page, and a set zeroed.
#![tactic(auto)]

ghost use Rattle.std.specs.Prelude.{◌≡◌, Bool, ◌+◌, ◌*◌, ◌<◌, ◌≤◌, ◌^◌, length};
ghost use Rattle.cache.specs.Cache.{cache_size, set_of, place_at, holds, hit, found, load_place, put_place, loaded, set_zeroed};

use entry::Words;
use groups::Page;

// The length of a cache.
pub const SIZE: usize = 2048;

// The length of a set, and of one of its two places.
const SET_SIZE: usize = 32;

const PLACE_SIZE: usize = 16;

// Where the set of a page index begins, in the cache.
#[tactic(auto, unfolding(crate::specs::Cache::set_of))]
fn set_start(index: u32) -> usize
    ensures at { result ≡ 32 * set_of index }
    ensures inside { result + 32 ≤ cache_size }
{
    (index % 64) as usize * SET_SIZE
}

// Whether the place that begins at a byte holds a page: V, VSID and page index. H and API are not compared.
fn holds(cache: &[u8], at: usize, page: Page) -> bool
    requires { (at + 16 ≤ length cache.now) × (page.vsid < 2 ^ 24) }
    ensures { (place : Bool) → at ≡ place_at page.index place → result ≡ holds cache.now page place }
{
    (words::read_word(cache, at) >> 7 == (page.vsid | 0x1000000))
        & (words::read_word(cache, at + 8) == page.index)
}

// What the cache has of a page, place 0 of its set first: the two words of its entry. A store that meets C clear is no hit.
// Length and VSID stay clauses here and below: the slice that an access lends may be empty, so its caller would make an array of it where it now asks
// its length, which is no plainer; and a page has no invariant (docs/DECISIONS.md, 164).
pub fn find(cache: &[u8], storing: bool, page: Page) -> Option<Words>
    requires { (length cache.now ≡ cache_size) × (page.vsid < 2 ^ 24) }
    ensures { found result ≡ hit storing cache.now page }
{
    let start = set_start(page.index);
    let further = start + PLACE_SIZE;
    let at = if holds(cache, start, page) {
        start
    } else if holds(cache, further, page) {
        further
    } else {
        return None;
    };
    let second = words::read_word(cache, at + 4);
    if storing & !entry::is_changed(second) {
        return None;
    }
    Some(Words {
        first: words::read_word(cache, at),
        second,
    })
}

// Whether a page is loaded into place 1 of its set: where that place holds it and place 0 does not, or where neither does and only place 0 is the
// newer load.
fn load_place(cache: &[u8], start: usize, page: Page) -> bool
    requires { (length cache.now ≡ cache_size) × (page.vsid < 2 ^ 24) × (start ≡ 32 * set_of page.index) × (start + 32 ≤ cache_size) }
    ensures { result ≡ load_place cache.now page }
{
    if holds(cache, start, page) {
        return false;
    }
    if holds(cache, start + PLACE_SIZE, page) {
        return true;
    }
    (words::read_word(cache, start + 12) == 1)
        & (words::read_word(cache, start + PLACE_SIZE + 12) != 1)
}

// Writes the two words of an entry, a page index and 1 as the place that begins at a byte.
#[tactic(auto, using(crate::proofs::Steps::placed_part))]
fn write_place(cache: &mut [u8], at: usize, words: Words, index: u32)
    requires { at + 16 ≤ length cache.old }
    ensures { cache.new ≡ put_place cache.old at words.first words.second index 1 }
{
    words::write_words(
        &mut cache[at..at + PLACE_SIZE],
        &[words.first, words.second, index, 1],
    );
}

// Loads a page with the two words of its entry. The other place of the set is not the newer load any more.
pub fn load(cache: &mut [u8], page: Page, words: Words)
    requires { (length cache.old ≡ cache_size) × (page.vsid < 2 ^ 24) }
    ensures { cache.new ≡ loaded page words.first words.second cache.old }
{
    let start = set_start(page.index);
    let further = start + PLACE_SIZE;
    if load_place(cache, start, page) {
        write_place(cache, further, words, page.index);
        words::write_word(cache, start + 12, 0);
    } else {
        write_place(cache, start, words, page.index);
        words::write_word(cache, further + 12, 0);
    }
}

// Zeroes the set of a page index, both places.
#[tactic(auto, using(crate::proofs::Steps::zeroed_part))]
pub fn zero_set(cache: &mut [u8], index: u32)
    requires { length cache.old ≡ cache_size }
    ensures { cache.new ≡ set_zeroed index cache.old }
{
    let start = set_start(index);
    groups::clear(&mut cache[start..start + SET_SIZE]);
}
