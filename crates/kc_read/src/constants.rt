//! The expressions of the constants n, m and y.

ghost use Rattle.std.specs.Prelude.{◌≡◌, true, IfOk};
ghost use Rattle.kc_expr.specs.declared.expression.Expr.TheVariants.{One};
ghost use Rattle.kc_expr.specs.declared.expression.Operand.TheVariants.{TristateConstant};
ghost use Rattle.kc_language.specs.declared.expressions.Tri.TheVariants.{N, M, Y};
ghost use Rattle.kc_expr.specs.Form.{form_of};
ghost use Rattle.kc_language.specs.Expressions.{tri_text, Single, Text};
ghost use Rattle.kc_read.specs.Constants.{is_constant};

use kc_expr::expression::{Expr, Operand, Tri};
use std::alloc::{AllocError, Global};
use std::rc::Rc;

/// The expressions `n`, `m` and `y`, each created once, since very many defaults are one of them (our own).
#[derive(Drop)]
pub(crate) struct Constants {
    no: Rc<Expr>,
    modular: Rc<Expr>,
    yes: Rc<Expr>,
    ghost no_is: { is_constant N no.value ≡ true },
    ghost modular_is: { is_constant M modular.value ≡ true },
    ghost yes_is: { is_constant Y yes.value ≡ true },
}

// The expression that is only this constant.
fn constant(alloc: Global, value: Tri) -> Result<Rc<Expr>, AllocError>
    ensures { IfOk result (λ e. e.value ≡ One (TristateConstant value)) }
{
    Ok(Rc::new(alloc, Expr::One(Operand::TristateConstant(value)))?)
}

impl Constants {
    /// Creates the three expressions. Fails only if memory runs out.
    pub(crate) fn new(alloc: Global) -> Result<Constants, AllocError> {
        let no = constant(alloc, Tri::N)?;
        let modular = constant(alloc, Tri::M)?;
        let yes = constant(alloc, Tri::Y)?;
        Ok(Constants { no, modular, yes })
    }

    // The expression of a constant.
    fn of(&self, value: Tri) -> &Rc<Expr>
        ensures { form_of result.now.value ≡ Single (Text (tri_text value)) }
    {
        match value {
            Tri::N => &self.no,
            Tri::M => &self.modular,
            Tri::Y => &self.yes,
        }
    }

    /// Returns an expression that may be shared. For a constant alone it is the existing one, which allocates
    /// nothing. Fails only if memory runs out.
    pub(crate) fn shared(&self, alloc: Global, value: Expr) -> Result<Rc<Expr>, AllocError>
        ensures { IfOk result (λ e. form_of e.value ≡ form_of value) }
    {
        match value {
            Expr::One(Operand::TristateConstant(tri)) => self.of(tri).clone(),
            other => Ok(Rc::new(alloc, other)?),
        }
    }
}
