//! Statements without blocks.

ghost use Rattle.std.specs.Prelude.{◌≡◌};
ghost use Rattle.vlt_core.specs.View.{form_of};
ghost use Rattle.cert_format.specs.Bodies as s;
ghost use Rattle.cert_read_rows.specs.Statements.{plain_of};

use cert_read_rows::PlainRow;
use vlt_core::Form;

/// The form of a row.
pub(crate) fn plain(row: PlainRow) -> Form
    ensures { form_of result ≡ s.plain_form (plain_of row) }
{
    match row {
        PlainRow::Set(v, e) => Form::Set { v, e },
        PlainRow::Input(v, more) => Form::Input { v, more },
        PlainRow::Print(e) => Form::Print { e },
        PlainRow::Put(x, field, e) => Form::Put { x, field, e },
        PlainRow::New(x, args) => Form::New { x, args },
        PlainRow::Become(x, state) => Form::Become { x, state },
        PlainRow::Release(x) => Form::Release { x },
        PlainRow::Drop(v) => Form::Drop { v },
        PlainRow::Own(v, value) => Form::Own { v, value },
        PlainRow::Unpack(x, v) => Form::Unpack { x, v },
        PlainRow::Build(v, case, args) => Form::Build { v, case, args },
        PlainRow::Call(f, target, keys, args) => Form::Call {
            f,
            target,
            keys,
            args,
        },
        PlainRow::Swap(x, field, v) => Form::Swap { x, field, v },
        PlainRow::Open(x, into) => Form::Open { x, into },
        PlainRow::Adopt(y, x, r) => Form::Adopt { y, x, r },
        PlainRow::Return(value) => Form::Return { value },
        PlainRow::Jump(continues) => Form::Jump { continues },
    }
}
