//! The sum of rows of bytes.

ghost use Rattle.std.specs.Prelude.{◌≡◌, length};
ghost use Rattle.hy_gf.specs.Row.{row_sum};

use crate::gf::Gf;
use crate::products::{Both, Doubled, Looked, Once};
use crate::tables::Tables;
use crate::terms::add_terms;

/// A row of bytes, and the factor that it is multiplied by.
#[derive(Clone, Copy, Debug)]
pub struct Product<'a> {
    pub row: &'a [u8],
    pub factor: Gf,
}

/// Adds the factor times the row to the bytes of `out`. A factor of 0 costs nothing, and one of 1 no product.
pub fn mul_add(row: &[u8], factor: Gf, out: &mut [u8])
    requires { length row.now ≡ length out.old }
    ensures { out.new ≡ row_sum factor row.now out.old }
{
    match factor.byte() {
        0 => {}
        1 => add_terms(&Once { row }, out),
        _ => {
            let tables = Tables::of(factor);
            add_terms(&Looked { row, tables }, out)
        }
    }
}

/// The same by doublings, with no tables: what the look-ups are compared with.
pub fn mul_add_by_doublings(row: &[u8], factor: Gf, out: &mut [u8])
    requires { length row.now ≡ length out.old }
    ensures { out.new ≡ row_sum factor row.now out.old }
{
    add_terms(&Doubled { row, factor }, out);
}

/// Adds four rows, each times its factor, to the bytes of `out`, which are read and written once.
pub fn mul_add_four(a: &Product, b: &Product, c: &Product, d: &Product, out: &mut [u8])
    requires a { length a.now.row.now ≡ length out.old }
    requires b { length b.now.row.now ≡ length out.old }
    requires c { length c.now.row.now ≡ length out.old }
    requires d { length d.now.row.now ≡ length out.old }
    ensures { out.new
        ≡ row_sum d.now.factor d.now.row.now (row_sum c.now.factor c.now.row.now
        (row_sum b.now.factor b.now.row.now (row_sum a.now.factor a.now.row.now out.old))) }
{
    let first = Both {
        first: looked(a),
        second: looked(b),
    };
    let second = Both {
        first: looked(c),
        second: looked(d),
    };
    add_terms(&Both { first, second }, out);
}

#[inline(always)]
fn looked<'a>(product: &Product<'a>) -> Looked<'a>
    ensures row { result.row.now ≡ product.now.row.now }
    ensures factor { result.tables ≡ product.now.factor }
{
    let tables = Tables::of(product.factor);
    Looked {
        row: product.row,
        tables,
    }
}
