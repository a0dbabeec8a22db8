// The ratios of current transformers that are made.
ghost use Rattle.std.specs.Prelude.{◌≡◌};
ghost use Rattle.command.specs.Ratios.{ratio_place};
ghost use Rattle.command.specs.Table.{among, ct_ratios};

static CT_RATIOS: [u32; 20] = [
    1, 2, 3, 4, 5, 6, 8, 10, 12, 15, 16, 20, 24, 30, 40, 50, 60, 80, 100, 120,
];

fn ct_ratios() -> &'static [u32]
    ensures { result.now ≡ ct_ratios }
{
    &CT_RATIOS
}

// The place of a ratio in the list of ratios, counted from 0; none where no such ratio is made.
pub(crate) fn ratio_place(ratio: u32) -> Option<usize>
    ensures { result ≡ ratio_place ratio }
{
    ct_ratios().iter().position(|made| *made == ratio)
}

// Whether a ratio is made.
pub(crate) fn is_ratio(ratio: u32) -> bool
    ensures { result ≡ among ratio ct_ratios }
{
    ratio_place(ratio).is_some()
}
