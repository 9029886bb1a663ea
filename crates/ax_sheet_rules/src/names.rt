ghost use Rattle.std.specs.Prelude.{◌≡◌};
ghost use Rattle.ax_sheet_rules.specs.Names.{is_int, is_param, is_int_param, takes};

use ax_rules::ParamKind;
use ax_sheet_parts::Param;
use ax_values::Name;

/// The names that may stand after `$`.
#[derive(Clone, Copy)]
pub enum Names<'a> {
    Any,
    Of(&'a [Param]),
    Ints(&'a [Param]),
    Nothing,
}

impl Names<'_> {
    pub(crate) fn takes(self, name: &Name) -> bool
        ensures { result ≡ takes self.entry name.now }
    {
        match self {
            Names::Any => true,
            Names::Of(params) => is_param(params, name),
            Names::Ints(params) => is_int_param(params, name),
            Names::Nothing => false,
        }
    }
}

fn is_int(kind: ParamKind) -> bool
    ensures { result ≡ is_int kind }
{
    matches!(kind, ParamKind::Int)
}

fn is_param(params: &[Param], name: &Name) -> bool
    ensures { result ≡ is_param params.now name.now }
{
    params.iter().any(|param| param.name.same(name))
}

fn is_int_param(params: &[Param], name: &Name) -> bool
    ensures { result ≡ is_int_param params.now name.now }
{
    params
        .iter()
        .any(|param| param.name.same(name) && is_int(param.kind))
}
