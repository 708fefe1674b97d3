// The flash of document 01 over an image that the caller lends: the block of an address, a page, programs, erases, the ID bytes and blankness.
#![tactic(auto)]

ghost use Rattle.std.specs.Prelude.{◌≡◌, ◌+◌, ◌≤◌, ◌<◌, length};
ghost use Rattle.slices.specs.Lists.{same};
ghost use Rattle.flash.specs.Blocks.{part, find, guarded, free, block_from, block_size};
ghost use Rattle.flash.specs.Image.{burn, free_from, permitted, wiped, wiped_free};
ghost use Rattle.flash.specs.Clauses.{BlockOfEnsures, PageAddressEnsures, PageEnsures, IdEnsures, BlankEnsures, ProgramEnsures, EraseEnsures, EraseAllEnsures};

use std::ops::Range;

// What an address of the flash names: its block, by its number, and its place in the image.
#[derive(Clone, Copy)]
pub struct Spot {
    pub block: usize,
    pub place: usize,
}

pub const IMAGE: usize = 20480;

pub const PAGE: usize = 256;

const BLOCKS: usize = 4;

// The block of an address and the place in the image, from the page number: low flash is pages 20 to 2F, blocks of 8 pages, and high flash
// pages C0 to FF, blocks of 32. In each the image has the bytes in the order of their addresses, without a gap.
pub fn block_of(address: u32) -> Option<Spot>
    ensures { BlockOfEnsures address result }
{
    let page = address / 256;
    // one split into low and high flash, as it was asked for: a match on the two ranges of pages would ask high flash twice more
    if page < 0xC0 {
        if page < 0x20 {
            return None;
        }
        if 0x2F < page {
            return None;
        }
        return Some(Spot {
            block: ((page - 0x20) / 8) as usize,
            place: (address - 0x2000) as usize,
        });
    }
    if 0xFF < page {
        return None;
    }
    Some(Spot {
        block: 2 + ((page - 0xC0) / 32) as usize,
        place: 4096 + (address - 0xC000) as usize,
    })
}

// The first address of a page: its low byte is 00.
pub fn page_address(mid: u8, high: u8) -> u32
    ensures { PageAddressEnsures mid high result }
{
    u32::from_le_bytes([0, mid, high, 0])
}

// The page of 256 bytes as the part of the lent image itself; an empty part where it is outside, or the image has a wrong size.
// No Option, here and in `id` and `blank`: document 01 names the empty part, and `flash_page_pinned` and its like what a wrong size gives.
pub fn page(image: &[u8], mid: u8, high: u8) -> &[u8]
    ensures { PageEnsures image.now mid high result.now }
{
    if image.len() != IMAGE {
        return &image[..0];
    }
    match block_of(page_address(mid, high)) {
        Some(spot) => &image[spot.place..spot.place + PAGE],
        None => &image[..0],
    }
}

// The seven ID bytes; zeros where the image has a wrong size. Their places one by one: over an array of places by `map` its goal stayed open.
pub fn id(image: &[u8]) -> [u8; 7]
    ensures { IdEnsures image.now result }
{
    if image.len() != IMAGE {
        return [0; 7];
    }
    [
        image[20447],
        image[20451],
        image[20459],
        image[20463],
        image[20467],
        image[20471],
        image[20475],
    ]
}

// The three bytes of the reset vector all hold FF.
pub fn blank(image: &[u8]) -> bool
    ensures { BlankEnsures image.now result }
{
    image.len() == IMAGE && slices::is_same(&image[20476..20479], &[0xFF; 3])
}

// Bit `block` of the protection number. `block < 4` stands here and in three functions below: a type for it would be made in two places, and taken apart in each of the four.
#[tactic(auto, unfolding(crate::specs::Blocks::guarded))]
fn is_guarded(protection: u8, block: usize) -> bool
    requires { block < 4 }
    ensures { result ≡ guarded protection block }
{
    (protection >> block) % 2 == 1
}

// The address is inside, and its block is not protected. The two stand side by side here as in `program` and `erase`, whose theorems speak of each.
fn is_free(protection: u8, address: u32) -> bool
    ensures { result ≡ free protection (find part address) }
{
    match block_of(address) {
        Some(spot) => !is_guarded(protection, spot.block),
        None => false,
    }
}

// Each of n addresses is inside and not protected: one address of a page speaks for all of it.
// It steps by pages, the first of them cut: a range is no plainer, since it must say which page an address past 2^32 has.
fn are_free(protection: u8, address: u32, n: usize) -> bool
    ensures { result ≡ free_from part protection address n }
{
    let mut at = address;
    let mut left = n;
    while 0 < left {
        if !is_free(protection, at) {
            return false;
        }
        let room = PAGE - (at % 256) as usize;
        if left <= room {
            return true;
        }
        at += room as u32;
        left -= room;
    }
    true
}

// May these bytes be programmed from this address on?
fn is_permitted(protection: u8, address: u32, new: &[u8]) -> bool
    ensures { result ≡ permitted part protection address new.now }
{
    !new.is_empty() && are_free(protection, address, new.len())
}

// Old AND new, byte by byte, and whether every byte then equals its data.
// By its index: of what a zipped `iter_mut` leaves, a proof knows the length alone.
fn burn_bytes(bytes: &mut [u8], new: &[u8]) -> bool
    requires { length bytes.old ≡ length new.now }
    ensures { (bytes.new ≡ burn bytes.old new.now)
        × (result ≡ same (burn bytes.old new.now) new.now) }
{
    let mut good = true;
    for (i, byte) in bytes.iter_mut().enumerate() {
        let want = new[i];
        *byte &= want;
        good &= *byte == want;
    }
    good
}

// Programs these bytes from an address on: true if each then equals its data, false if one differs or nothing may be written.
// It answers a bool, as `erase` does, and no Result: `flash_program_pinned` and `flash_erase_pinned` speak of it, and false is an outcome, from which a status bit follows.
pub fn program(image: &mut [u8], protection: u8, address: u32, new: &[u8]) -> bool
    ensures { ProgramEnsures image.old protection address new.now result image.new }
{
    if image.len() != IMAGE || !is_permitted(protection, address, new) {
        return false;
    }
    match block_of(address) {
        Some(spot) => burn_bytes(&mut image[spot.place..spot.place + new.len()], new),
        None => false,
    }
}

// The places of a block in the image.
fn extent(block: usize) -> Range<usize>
    requires { block < 4 }
    ensures { (result.start ≡ block_from part block) × (result.end ≡ block_from part block + block_size part block) }
{
    match block {
        0 => 0..2048,
        1 => 2048..4096,
        2 => 4096..12288,
        _ => 12288..20480,
    }
}

// A block becomes FF.
fn wipe(image: &mut [u8; IMAGE], block: usize)
    requires { block < 4 }
    ensures { image.new ≡ wiped part block image.old }
{
    image[extent(block)].fill(0xFF);
}

// Erases the block of an address: true if it did, false if the address is outside or the block protected.
pub fn erase(image: &mut [u8], protection: u8, address: u32) -> bool
    ensures { EraseEnsures image.old protection address result image.new }
{
    let Some(image) = image.as_mut_array::<IMAGE>() else {
        return false;
    };
    let Some(spot) = block_of(address) else {
        return false;
    };
    if is_guarded(protection, spot.block) {
        return false;
    }
    wipe(image, spot.block);
    true
}

// A block becomes FF, unless it is protected.
#[tactic(auto, unfolding(crate::specs::Image::wiped_free))]
fn wipe_free(image: &mut [u8; IMAGE], protection: u8, block: usize)
    requires { block < 4 }
    ensures { image.new ≡ wiped_free part protection block image.old }
{
    if !is_guarded(protection, block) {
        wipe(image, block);
    }
}

// Erases every block that is not protected.
pub fn erase_all(image: &mut [u8], protection: u8)
    ensures { EraseAllEnsures image.old protection image.new }
{
    let Some(image) = image.as_mut_array::<IMAGE>() else {
        return;
    };
    for block in 0..BLOCKS {
        wipe_free(image, protection, block);
    }
}
