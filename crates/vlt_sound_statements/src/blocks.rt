//! Laws on statements with blocks.

ghost use Rattle.std.specs.Prelude.{ℕ, Bool, List};
ghost use Rattle.vlt_core.specs.Core.{Tok, Expr, choose, loop, scope, jump, Form, Block, block, Stmts, done, next, Func};
ghost use Rattle.vlt_meaning.specs.Run.{Setup, Meaning, does_stmts};
ghost use Rattle.vlt_sound_worlds.specs.Typed.{IsTyped};
ghost use Rattle.vlt_sound_worlds.specs.Scoped.{HasKeys};
ghost use Rattle.vlt_sound_statements.specs.Statements.{IsSafeForm, IsSafeBlock, AreSafe, RestIsSafe};

/// A block is safe where its statements are.
pub fn blocks_are_safe()
    ensures { (r : Setup) (rest_of : Meaning) (f : Func) (ss : Stmts) (bound : List Tok)
        (end : ℕ) → IsTyped r.program f → HasKeys f →
        AreSafe r f ss (does_stmts r rest_of f ss) →
        IsSafeBlock r rest_of f (block ss bound end) }
{}

/// Statements one after another are safe where each is.
pub fn lists_are_safe()
    ensures none { (r : Setup) (rest_of : Meaning) (f : Func) → IsTyped r.program f →
        HasKeys f → AreSafe r f done (does_stmts r rest_of f done) }
    ensures more { (r : Setup) (rest_of : Meaning) (f : Func) (at : ℕ) (form : Form)
        (rest : Stmts) → IsTyped r.program f → HasKeys f → IsSafeForm r rest_of f form →
        AreSafe r f rest (does_stmts r rest_of f rest) →
        AreSafe r f (next at form rest) (does_stmts r rest_of f (next at form rest)) }
{}

/// Choices and scopes are safe where the blocks in them are; a loop is where what comes after its turn is, too; jumps are.
pub fn branches_are_safe()
    ensures choices { (r : Setup) (rest_of : Meaning) (f : Func) (e : Expr) (a b : Block) →
        IsTyped r.program f → HasKeys f → IsSafeBlock r rest_of f a →
        IsSafeBlock r rest_of f b → IsSafeForm r rest_of f (choose e a b) }
    ensures loops { (r : Setup) (rest_of : Meaning) (f : Func) (e : Expr) (b : Block) →
        IsTyped r.program f → HasKeys f → IsSafeBlock r rest_of f b → RestIsSafe r rest_of f →
        IsSafeForm r rest_of f (loop e b) }
    ensures scopes { (r : Setup) (rest_of : Meaning) (f : Func) (b : Block) →
        IsTyped r.program f → HasKeys f → IsSafeBlock r rest_of f b →
        IsSafeForm r rest_of f (scope b) }
    ensures jumps { (r : Setup) (rest_of : Meaning) (f : Func) (continues : Bool) →
        IsTyped r.program f → HasKeys f → IsSafeForm r rest_of f (jump continues) }
{}
