// References to the attributes of resources.
ghost use Rattle.std.specs.Prelude.{◌≡◌, IfOk};
ghost use Rattle.cdk_language.specs.Expression.{view, get_att};

use cdk_base::Text;
use cdk_language::Expr;
use std::alloc::{AllocError, Global};

/// The attribute of the resource at the path, as an expression.
pub fn attribute_of(alloc: Global, path: &str, attribute: &str) -> Result<Expr, AllocError>
    ensures { IfOk result (λ e. view e ≡ get_att path.now attribute.now) }
{
    let path = Text::new(alloc, path)?;
    let attribute = Text::new(alloc, attribute)?;
    Ok(Expr::GetAtt(path, attribute))
}
