//! Forms of nodes.

use crate::operator::{AddOperator, MulOperator, RelOperator, Sign};
use pc_syntax::Sort;

/// What a node is, with its parts by their names: a `T` for a kid, an `L` for the kids of a list, a `W` for a word. In code
/// they are references to trees, in definitions plain trees, or what a definition gives for each of them.
#[derive(Drop)]
pub enum Form<T, L, W> {
    /// `program name heads ; block .`
    Program {
        name: T,
        heads: T,
        block: T,
    },
    /// `consts types vars routines body`
    Block {
        consts: T,
        types: T,
        vars: T,
        routines: T,
        body: T,
    },
    /// The directive `forward` in the place of a block.
    Forward {
        word: W,
    },
    /// `name = value ;`
    Constdef {
        name: T,
        value: T,
    },
    /// `name = denoter ;`
    Typedef {
        name: T,
        denoter: T,
    },
    /// `names : denoter ;`
    Vardef {
        names: T,
        denoter: T,
    },
    /// `names : denoter`
    Field {
        names: T,
        denoter: T,
    },
    /// `names : type_name`
    Valparam {
        names: T,
        type_name: T,
    },
    /// `var names : type_name`
    Varparam {
        names: T,
        type_name: T,
    },
    /// `procedure name params ; block ;`
    Procedure {
        name: T,
        params: T,
        block: T,
    },
    /// `function name params : result_type ; block ;`
    Function {
        name: T,
        params: T,
        result_type: T,
        block: T,
    },
    /// `function name ; block ;`
    Funbody {
        name: T,
        block: T,
    },
    /// `name`, as a type.
    Tname {
        name: T,
    },
    /// `( names )`
    Enum {
        names: T,
    },
    /// `low .. high`
    Subrange {
        low: T,
        high: T,
    },
    /// `array [ indexes ] of element`
    Array {
        indexes: T,
        element: T,
    },
    /// `record fields end`, with a `;` before the `end` or none.
    Record {
        fields: T,
    },
    /// `record end`
    Record0,
    /// `set of base`
    Setof {
        base: T,
    },
    /// `packed unpacked`
    Packed {
        unpacked: T,
    },
    /// `^ name`
    Pointer {
        name: T,
    },
    /// A numeral, as a constant.
    Cnumber {
        word: W,
    },
    /// A text, as a constant.
    Cstring {
        word: W,
    },
    /// `name`, as a constant.
    Cname {
        name: T,
    },
    /// `sign constant`
    Csign {
        sign: Sign,
        constant: T,
    },
    /// Nothing.
    Empty,
    /// `target := value`
    Assign {
        target: T,
        value: T,
    },
    /// `name args`
    Proc {
        name: T,
        args: T,
    },
    /// `begin stmts end`
    Compound {
        stmts: T,
    },
    /// `if condition then body`
    If {
        condition: T,
        body: T,
    },
    /// `if condition then body else otherwise`
    Ifelse {
        condition: T,
        body: T,
        otherwise: T,
    },
    /// `case selector of arms end`, with a `;` before the `end` or none.
    Case {
        selector: T,
        arms: T,
    },
    /// `labels : body`
    Arm {
        labels: T,
        body: T,
    },
    /// `repeat stmts until condition`
    Repeat {
        stmts: T,
        condition: T,
    },
    /// `while condition do body`
    While {
        condition: T,
        body: T,
    },
    /// `for control := first to last do body`, with `downto` where it goes downwards.
    For {
        control: T,
        first: T,
        downwards: bool,
        last: T,
        body: T,
    },
    /// `with records do body`
    With {
        records: T,
        body: T,
    },
    /// `name`, as a variable, a constant or a function without arguments.
    Ref {
        name: T,
    },
    /// `array [ indexes ]`
    Index {
        array: T,
        indexes: T,
    },
    /// `whole . field`
    Select {
        whole: T,
        field: T,
    },
    /// `pointer ^`
    Deref {
        pointer: T,
    },
    /// A numeral.
    Number {
        word: W,
    },
    /// A text.
    Text {
        word: W,
    },
    /// `nil`
    Nil,
    /// `name ( args )`
    Call {
        name: T,
        args: T,
    },
    /// `( inner )`
    Parens {
        inner: T,
    },
    /// `not operand`
    Not {
        operand: T,
    },
    /// `[ members ]`
    Setcon {
        members: T,
    },
    /// `left operator right`
    Mul {
        left: T,
        operator: MulOperator,
        right: T,
    },
    /// `left operator right`
    Add {
        left: T,
        operator: AddOperator,
        right: T,
    },
    /// `sign operand`
    Sign {
        sign: Sign,
        operand: T,
    },
    /// `left operator right`
    Rel {
        left: T,
        operator: RelOperator,
        right: T,
    },
    /// `value : width`
    Width {
        value: T,
        width: T,
    },
    /// `low .. high`
    Span {
        low: T,
        high: T,
    },
    /// An identifier.
    Name {
        word: W,
    },
    /// `( name , name )`, or nothing where it is empty.
    Heads(L),
    /// `( argument , argument )`, or nothing where it is empty.
    Args(L),
    /// `( parameter ; parameter )`, or nothing where it is empty.
    Params(L),
    /// `name , name`
    Names(L),
    /// `constant , constant`
    Labels(L),
    /// `ordinal , ordinal`
    Indexes(L),
    /// `expression , expression`
    Exprs(L),
    /// `access , access`
    Accesses(L),
    /// `member , member`, or nothing where it is empty.
    Members(L),
    /// `const constdef constdef`, or nothing where it is empty.
    Consts(L),
    /// `type typedef typedef`, or nothing where it is empty.
    Types(L),
    /// `var vardef vardef`, or nothing where it is empty.
    Vars(L),
    /// `routine routine`, or nothing where it is empty.
    Routines(L),
    /// `field ; field`
    Fields(L),
    /// `statement ; statement`
    Stmts(L),
    /// `arm ; arm`
    Arms(L),
    /// A part of this sort that is still to be written.
    Hole(Sort),
}
