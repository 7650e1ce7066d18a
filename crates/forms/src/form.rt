// The record of a generator form.

// A form: a generator of the code in systematic form. Its first k positions count, in the order picked, and the first k · n codes of its rows; what lies behind is 0.
// The arrays are as long as the largest form needs: memory is fixed, and the record is `Copy`.
// Its rank is the number of its positions that no earlier form has.
#[derive(Clone, Copy)]
pub struct Form {
    pub positions: [u8; 32],
    pub rank: usize,
    pub rows: [u8; 2048],
}

impl Form {
    // What a place for a form holds before one is made.
    pub const EMPTY: Form = Form {
        positions: [0; 32],
        rank: 0,
        rows: [0; 2048],
    };
}
