// The kinds by the Rust's names. Their numbers are document 01's. They are constants and no enum: `read_string`, which takes any two numbers
// for its kinds, and the records that are lent hold numbers, so that no value of an enum would be kept, and each name would need a cast. Nothing makes a
// `SyntaxKind`: it is where the names stand.
#[derive(Clone, Copy)]
pub struct SyntaxKind(pub u32);

impl SyntaxKind {
    pub const NoToken: u32 = 0;

    pub const Whitespace: u32 = 1;

    pub const Comment: u32 = 2;

    pub const Number: u32 = 3;

    pub const BareWord: u32 = 4;

    pub const StringToken: u32 = 5;

    pub const QuotedIdentifier: u32 = 6;

    pub const HereDoc: u32 = 7;

    pub const OpeningRoundBracket: u32 = 8;

    pub const ClosingRoundBracket: u32 = 9;

    pub const OpeningSquareBracket: u32 = 10;

    pub const ClosingSquareBracket: u32 = 11;

    pub const OpeningCurlyBrace: u32 = 12;

    pub const ClosingCurlyBrace: u32 = 13;

    pub const Comma: u32 = 14;

    pub const Semicolon: u32 = 15;

    pub const Dot: u32 = 16;

    pub const Star: u32 = 17;

    pub const DollarSign: u32 = 18;

    pub const Plus: u32 = 19;

    pub const Minus: u32 = 20;

    pub const Arrow: u32 = 21;

    pub const Slash: u32 = 22;

    pub const Percent: u32 = 23;

    pub const QuestionMark: u32 = 24;

    pub const Colon: u32 = 25;

    pub const DoubleColon: u32 = 26;

    pub const Caret: u32 = 27;

    pub const Equals: u32 = 28;

    pub const Spaceship: u32 = 29;

    pub const NotEquals: u32 = 30;

    pub const Less: u32 = 31;

    pub const LessOrEquals: u32 = 32;

    pub const Greater: u32 = 33;

    pub const GreaterOrEquals: u32 = 34;

    pub const Concatenation: u32 = 35;

    pub const At: u32 = 36;

    pub const DoubleAt: u32 = 37;

    pub const VerticalDelimiter: u32 = 38;

    pub const EndOfStream: u32 = 39;

    pub const ErrorMultilineCommentIsNotClosed: u32 = 40;

    pub const ErrorSingleQuoteIsNotClosed: u32 = 41;

    pub const ErrorDoubleQuoteIsNotClosed: u32 = 42;

    pub const ErrorBackQuoteIsNotClosed: u32 = 43;

    pub const ErrorWrongNumber: u32 = 44;

    pub const ErrorSingleExclamationMark: u32 = 45;

    pub const ErrorSinglePipeMark: u32 = 46;

    pub const ErrorToken: u32 = 47;

    pub const ErrorMaxQuerySizeExceeded: u32 = 48;
}
