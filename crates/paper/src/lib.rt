// The paper: the types of document 01 and, in specs/, every rule of it, with the orders of document 02 in force, as a definition.
// It holds no other code and uses no other crate; every other crate may use it.
#![tactic(auto)]

// A module: every figure and every rule in which panels differ. All else is asked of it.
#[derive(Clone, Copy)]
pub struct Module {
    // the memory's columns, its rows of 8 dots, and how many of the columns are visible
    pub columns: usize,
    pub rows: usize,
    pub visible: usize,
    // the columns of a glyph in the font
    pub glyph: usize,
    // whether a glyph is 7 dots high and framed by blanks: columns by the width w, a dot by the row. Else it is its cell, 8 dots high
    pub framed: bool,
    // the lowest and the highest brightness, whether 10h to 18h are some too, and the initial one
    pub dimmest: u8,
    pub brightest: u8,
    pub finer: bool,
    pub brightness: u8,
    // whether 1Bh 74h takes FFh too
    pub tables: bool,
    // whether LF in MD1 keeps its column where there is no room below
    pub keeps: bool,
    // the codes that not all panels know: 10h to 14h; 1Bh 25h, 26h and 3Fh; 1Fh 28h 67h 03h
    pub shortcuts: bool,
    pub downloads: bool,
    pub widths: bool,
}

// How a cell is drawn: reverse 0 or 1, mixing 0 to 3, and the enlargement, 1 to 4 across and 1 to 2 down. Here and below a setting, a mode
// and a window are numbers and no enums: a lent record may hold any, and number 8 tests them.
#[derive(Clone, Copy)]
pub struct Style {
    pub reverse: u8,
    pub mixing: u8,
    pub across: u8,
    pub down: u8,
}

// The common settings, each named after its use; `charset`, `codes`, `caret`, `brightness` and `speed` are kept only. `switch` says
// whether downloads are drawn.
#[derive(Clone, Copy)]
pub struct Settings {
    pub charset: u8,
    pub codes: u8,
    pub caret: u8,
    pub brightness: u8,
    pub speed: u8,
    pub width: u8,
    pub write: u8,
    pub style: Style,
    pub switch: u8,
}

// A window's cursor, counted from the window's top left, and its mode, 1 to 3 for MD1 to MD3.
#[derive(Clone, Copy, PartialEq, Eq, Default)]
pub struct Cursor {
    pub x: u16,
    pub y: u16,
    pub mode: u8,
}

// A user window. One that is not defined is all zeros; no defined one is 0 columns wide.
#[derive(Clone, Copy, PartialEq, Eq, Default)]
pub struct Window {
    pub left: u16,
    pub top: u16,
    pub width: u16,
    pub height: u16,
    pub cursor: Cursor,
}

// The columns of one row written since the last refresh: from `first` to the one before `end`. Nothing is 0 and 0.
#[derive(Clone, Copy, PartialEq, Eq, Default)]
pub struct Span {
    pub first: u16,
    pub end: u16,
}

// A span for each row.
pub type Spans = [Span; 2];

// The range in which a command works, with the cursor counted from its top left, and the mode.
#[derive(Clone, Copy)]
pub struct View {
    pub left: usize,
    pub top: usize,
    pub width: usize,
    pub height: usize,
    pub x: usize,
    pub y: usize,
    pub mode: u8,
}

// A rectangle of the memory: its left column and its top row, how many columns it has and how many rows.
#[derive(Clone, Copy)]
pub struct Rect {
    pub left: usize,
    pub top: usize,
    pub width: usize,
    pub height: usize,
}

// A setting that one byte gives, named by the command that sets it.
#[derive(Clone, Copy, PartialEq, Eq)]
pub enum Key {
    // 1Bh 52h
    Charset,
    // 1Bh 74h
    Codes,
    // 1Fh 43h
    Caret,
    // 1Fh 58h
    Brightness,
    // 1Fh 72h
    Reverse,
    // 1Fh 73h
    Speed,
    // 1Fh 77h
    Mixing,
    // 1Fh 28h 67h 03h
    Width,
    // 1Fh 28h 77h 10h
    Write,
    // 1Bh 25h
    Switch,
}

// A 16-bit parameter that is awaited, with the parameters before it.
#[derive(Clone, Copy)]
pub enum Word {
    CursorX,
    CursorY {
        x: u16,
    },
    WindowLeft {
        a: u8,
    },
    WindowTop {
        a: u8,
        left: u16,
    },
    WindowWidth {
        a: u8,
        left: u16,
        top: u16,
    },
    WindowHeight {
        a: u8,
        left: u16,
        top: u16,
        width: u16,
    },
    ImageWidth,
    ImageHeight {
        width: u16,
    },
}

// The codes of a define: its first, the one that it is at, its last.
#[derive(Clone, Copy)]
pub struct Batch {
    pub first: u8,
    pub code: u8,
    pub last: u8,
}

// A download's columns as they come: how many it has, 5 or 7, how many have come, and their bytes, leftmost first. One that has not
// come is 0. They are seven fields and no array, for speed: the state that goes round with each byte holds none.
#[derive(Clone, Copy, PartialEq, Eq, Default)]
pub struct Columns {
    pub width: u8,
    pub come: u8,
    pub c0: u8,
    pub c1: u8,
    pub c2: u8,
    pub c3: u8,
    pub c4: u8,
    pub c5: u8,
    pub c6: u8,
}

// The half-read command: what is awaited, with the parameters gathered so far.
#[derive(Clone, Copy)]
pub enum Half {
    // no command is half read
    Nothing,
    // after 1Bh
    Escape,
    // after 1Fh
    Unit,
    // after 1Fh 28h
    Group,
    // after 1Fh 28h 61h
    Actions,
    // after 1Fh 28h 66h
    Images,
    // after 1Fh 28h 67h
    Characters,
    // after 1Fh 28h 77h
    Windows,
    // the one parameter of a setting
    Value(Key),
    // the rest of a command that is not carried and not checked, `left` bytes of it
    Rest {
        left: u8,
    },
    // a define of downloads: its a, its c1, its c2; then the width of the code that it is at, or that code's next column, with the note
    // whether a code of this define was dropped
    DownloadA,
    DownloadFrom,
    DownloadTo {
        from: u8,
    },
    GlyphWidth {
        batch: Batch,
        dropped: bool,
    },
    GlyphByte {
        batch: Batch,
        dropped: bool,
        columns: Columns,
    },
    // a 16-bit parameter, low byte first
    Low(Word),
    High {
        word: Word,
        low: u8,
    },
    // the image's g, then its bytes: the next one's column and row in the image
    ImageKind {
        width: u16,
        height: u16,
    },
    ImageData {
        width: u16,
        height: u16,
        column: u16,
        row: u16,
    },
    // the enlargement's x and y
    EnlargeX,
    EnlargeY {
        x: u8,
    },
    // a window's number, to be selected
    SelectA,
    // a window's number, to be defined or cancelled, and which of the two
    WindowA,
    WindowB {
        a: u8,
    },
    // a download to be erased: its a, and its code
    EraseA,
    EraseCode {
        a: u8,
    },
}

// A command read whole.
#[derive(Clone, Copy)]
pub enum Command {
    Character(u8),
    Back,
    Tab,
    LineFeed,
    Home,
    Clear,
    Return,
    Select(u8),
    Initialise,
    Mode(u8),
    Set {
        key: Key,
        value: u8,
    },
    Enlarge {
        x: u8,
        y: u8,
    },
    CursorSet {
        x: u16,
        y: u16,
    },
    Define {
        a: u8,
        left: u16,
        top: u16,
        width: u16,
        height: u16,
    },
    Cancel(u8),
    Uncarried,
    Erase {
        a: u8,
        code: u8,
    },
}

// What a byte gives to a half-read command.
#[derive(Clone, Copy)]
pub enum Reading {
    // the command is not whole yet
    More(Half),
    // the command is whole
    Whole(Command),
    // a byte of an image, its place there, and what is half read after it; and an image's last byte
    ImageByte {
        column: u16,
        row: u16,
        byte: u8,
        next: Half,
    },
    ImageEnd {
        column: u16,
        row: u16,
        byte: u8,
    },
    // a download's last column has come, of the code that the define is at, with the define's note of a drop
    GlyphEnd {
        batch: Batch,
        dropped: bool,
        columns: Columns,
    },
    // the command is cancelled at this byte
    Cancels,
    // this byte makes the code unknown
    UnknownCode,
}

// What a byte of the stream came to: the numbers 9 to 19.
#[derive(Clone, Copy, PartialEq, Eq)]
pub enum Outcome {
    Unfinished,
    Carried,
    OutOfDomain,
    Cancelled,
    Unknown,
    NotCarried,
    WindowHeld,
    TooLarge,
    NotDefined,
    Dropped,
    NotStored,
}

// Why a call was refused: the numbers 1 to 8, 20 and 21, or that it was not, which is the number 0. No call answers a Result: a refused one
// hands its state back too (document 01; demands `refused`), and the paper's answers have both.
#[derive(Clone, Copy, PartialEq, Eq)]
pub enum Refusal {
    Accepted,
    MemoryLength,
    FontLength,
    GlassLength,
    NoSuchWindow,
    UndefinedWindow,
    HeldAlready,
    NotHeld,
    BrokenState,
    NoSuchAddress,
    NoTelegram,
}

// A held window, and what its release puts back: which was selected before, and the settings.
#[derive(Clone, Copy)]
pub struct Held {
    pub window: u8,
    pub selected: u8,
    pub settings: Settings,
}

// All that a panel knows besides its memory and its downloads, which stand beside it: 144 bytes, lent like the memory. `selected` is
// 0 for the base window, whose cursor is `base`.
#[derive(Clone, Copy)]
pub struct State {
    pub half: Half,
    pub settings: Settings,
    pub windows: [Window; 4],
    pub base: Cursor,
    pub selected: u8,
    pub hold: Option<Held>,
    pub spans: Spans,
}

// What start, hold and release answer.
#[derive(Clone, Copy)]
pub struct Answer {
    pub refusal: Refusal,
    pub state: State,
}

// What a feed answers: commands carried out, commands answered 11 to 19, and what the last byte came to.
#[derive(Clone, Copy)]
pub struct Fed {
    pub refusal: Refusal,
    pub state: State,
    pub carried: usize,
    pub answered: usize,
    pub outcome: Outcome,
}

// What a refresh answers: the bytes moved.
#[derive(Clone, Copy)]
pub struct Refreshed {
    pub refusal: Refusal,
    pub state: State,
    pub moved: usize,
}

// What a received piece has for an address: where the data of its first telegram begin, how many they are, and the place after it.
#[derive(Clone, Copy)]
pub struct Received {
    pub refusal: Refusal,
    pub first: usize,
    pub count: usize,
    pub after: usize,
}
