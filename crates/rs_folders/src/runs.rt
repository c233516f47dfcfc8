//! Which bytes of a block lie in which file.
use rs_volumes::placement::Place;

/// A run of bytes of a piece of a block that lie in one file.
#[derive(Clone, Copy)]
pub struct Run {
    /// The index of the file in the description.
    pub file: usize,
    /// The offset in bytes of the run in the file.
    pub offset: u64,
    /// The index of the first byte of the run in the piece.
    pub from: usize,
    /// The index after the last byte of the run in the piece.
    pub to: usize,
}

/// Returns the places of the block with the index `block`. `places` are all places of a set, in order of the data.
pub fn places_in(places: &[Place], block: usize) -> &[Place] {
    let from = places.partition_point(|place| place.block < block);
    let to = places.partition_point(|place| place.block <= block);
    places.get(from..to).unwrap_or(&[])
}

/// Returns the places of a block that have bytes in a piece of it. `places` are the places of the block. The piece
/// begins at byte `start` of the block and has `length` bytes.
pub fn places_of_piece(places: &[Place], start: u64, length: usize) -> &[Place] {
    let end = start.saturating_add(length as u64);
    let from = places.partition_point(|place| place.at.saturating_add(place.bytes) <= start);
    let to = places.partition_point(|place| place.at < end);
    places.get(from..to).unwrap_or(&[])
}

/// Returns the bytes of a place that are in a piece of its block, or `None` if there are none. The piece begins at byte
/// `start` of the block and has `length` bytes.
pub fn run_of(place: &Place, start: u64, length: usize) -> Option<Run> {
    let end = start.saturating_add(length as u64);
    let from = place.at.max(start);
    let to = place.at.saturating_add(place.bytes).min(end);
    if from >= to {
        return None;
    }
    Some(Run {
        file: place.file,
        offset: place.offset.saturating_add(from - place.at),
        from: (from - start) as usize,
        to: (to - start) as usize,
    })
}

/// Returns whether the bytes of a piece of a block that are in no file are zeros. `places` are the places of the block,
/// and the piece begins at byte `start` of the block.
pub fn is_padded(places: &[Place], start: u64, piece: &[u8]) -> bool {
    let mut next = 0;
    for place in places_of_piece(places, start, piece.len()) {
        if let Some(run) = run_of(place, start, piece.len()) {
            if !are_zeros(piece.get(next..run.from)) {
                return false;
            }
            next = run.to;
        }
    }
    are_zeros(piece.get(next..))
}

// Returns whether all of these bytes are zeros. This is true if there are no bytes.
fn are_zeros(bytes: Option<&[u8]>) -> bool {
    bytes.is_none_or(|bytes| bytes.iter().all(|byte| *byte == 0))
}
