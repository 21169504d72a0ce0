//! Worked examples of the operators on cells.

#![tactic(auto)]

#[cfg(test)]
mod tests {
    use syntax::{Binary, Unary};
    use values::Fault;

    const MAX: i32 = 2147483647;

    // Whether a call told these cells.
    fn told(r: Result<usize, Fault>, out: &[i32; 200], want: &[i32]) -> bool {
        r.is_ok_and(|n| out.get(..n) == Some(want))
    }

    // How many cells a call told: 0 beside a fault.
    fn length(r: Result<usize, Fault>) -> usize {
        r.unwrap_or(0)
    }

    // Whether a call told the fault with this number.
    fn fault(r: Result<usize, Fault>, want: u8) -> bool {
        r.is_err_and(|e| e.number() == want)
    }

    fn one(op: Unary, a: &[i32], want: &[i32]) -> bool {
        let mut out = [0; 200];
        told(operations::unary(op, a, &mut out), &out, want)
    }

    fn one_faults(op: Unary, a: &[i32], want: u8) -> bool {
        let mut out = [0; 200];
        fault(operations::unary(op, a, &mut out), want)
    }

    fn two(op: Binary, a: &[i32], b: &[i32], want: &[i32]) -> bool {
        let mut out = [0; 200];
        told(operations::binary(op, a, b, &mut out), &out, want)
    }

    fn two_fault(op: Binary, a: &[i32], b: &[i32], want: u8) -> bool {
        let mut out = [0; 200];
        fault(operations::binary(op, a, b, &mut out), want)
    }

    #[test]
    fn numbers(rt: HostRuntime) {
        assert!(rt; two(Binary::Mod, &[0, -7], &[0, 3], &[0, 2]));
        assert!(rt; two(Binary::Rem, &[0, -7], &[0, 3], &[0, -1]));
        assert!(rt; two(Binary::Mod, &[0, 7], &[0, -3], &[0, -2]));
        assert!(rt; two(Binary::Div, &[0, -7], &[0, 3], &[0, -2]));
        assert!(rt; two_fault(Binary::Div, &[0, 1], &[0, 0], 22));
        assert!(rt; two_fault(Binary::Div, &[1, 1], &[0, 0], 20));
    }

    #[test]
    fn edges(rt: HostRuntime) {
        assert!(rt; two_fault(Binary::Plus, &[0, MAX], &[0, 1], 21));
        assert!(rt; two(Binary::Plus, &[0, MAX], &[0, -MAX], &[0, 0]));
        assert!(rt; two_fault(Binary::Minus, &[0, -MAX], &[0, 1], 21));
        assert!(rt; two_fault(Binary::Times, &[0, MAX], &[0, MAX], 21));
        assert!(rt; two(Binary::Div, &[0, -MAX], &[0, -1], &[0, MAX]));
        assert!(rt; two(Binary::Mod, &[0, -MAX], &[0, MAX], &[0, 0]));
        assert!(rt; one(Unary::Negate, &[0, MAX], &[0, -MAX]));
        assert!(rt; one(Unary::Abs, &[0, -MAX], &[0, MAX]));
    }

    #[test]
    fn sets(rt: HostRuntime) {
        let odd = [2, 2, 0, 1, 0, 3];
        let small = [2, 2, 0, 1, 0, 2];
        assert!(rt; two(Binary::Union, &odd, &small, &[2, 3, 0, 1, 0, 2, 0, 3]));
        assert!(rt; two(Binary::Inter, &odd, &small, &[2, 1, 0, 1]));
        assert!(rt; two(Binary::Difference, &odd, &small, &[2, 1, 0, 3]));
        assert!(rt; two(Binary::Subset, &[2, 0], &odd, &[1, 1]));
        assert!(rt; two(Binary::ProperSubset, &odd, &odd, &[1, 0]));
        assert!(rt; two(Binary::InSet, &[0, 3], &odd, &[1, 1]));
        assert!(rt; two_fault(Binary::InSet, &odd, &[0, 3], 20));
        assert!(rt; one(Unary::Card, &odd, &[0, 2]));
    }

    #[test]
    fn nested(rt: HostRuntime) {
        // {{}, {1}} and {{1}, {{}}}
        let left = [2, 2, 2, 0, 2, 1, 0, 1];
        let right = [2, 2, 2, 1, 0, 1, 2, 1, 2, 0];
        assert!(rt;
            two(
                Binary::Union,
                &left,
                &right,
                &[2, 3, 2, 0, 2, 1, 0, 1, 2, 1, 2, 0],
            )
        );
        assert!(rt; two(Binary::Inter, &left, &right, &[2, 1, 2, 1, 0, 1]));
        assert!(rt; two(Binary::InSet, &[2, 0], &left, &[1, 1]));
        assert!(rt; two(Binary::InSet, &[2, 0], &right, &[1, 0]));
    }

    #[test]
    fn sequences(rt: HostRuntime) {
        let s = [3, 3, 0, 3, 1, 1, 0, 3];
        assert!(rt; one(Unary::Len, &s, &[0, 3]));
        assert!(rt; one(Unary::Hd, &s, &[0, 3]));
        assert!(rt; one(Unary::Tl, &s, &[3, 2, 1, 1, 0, 3]));
        assert!(rt; one(Unary::Elems, &s, &[2, 2, 0, 3, 1, 1]));
        assert!(rt; one(Unary::Inds, &s, &[2, 3, 0, 1, 0, 2, 0, 3]));
        assert!(rt; one_faults(Unary::Hd, &[3, 0], 24));
        assert!(rt; one_faults(Unary::Tl, &[3, 0], 24));
        assert!(rt; two(Binary::Apply, &s, &[0, 2], &[1, 1]));
        assert!(rt; two_fault(Binary::Apply, &s, &[0, 0], 24));
        assert!(rt; two_fault(Binary::Apply, &s, &[0, 4], 24));
        assert!(rt; two(Binary::Concat, &[3, 0], &s, &s));
    }

    #[test]
    fn ranges(rt: HostRuntime) {
        let mut out = [0; 200];
        assert_eq!(rt; length(operations::range(&[0, 1], &[0, 99], &mut out)), 200);
        assert_eq!(rt; out[199], 99);
        assert!(rt; two_fault(Binary::Union, &out, &[2, 1, 0, 100], 23));
        assert!(rt; two(Binary::Union, &out, &[2, 1, 0, 99], &out));
        assert!(rt; fault(operations::range(&[0, 1], &[0, 100], &mut out), 23));
        assert!(rt; fault(operations::range(&[0, -MAX], &[0, MAX], &mut out), 23));
        assert_eq!(rt; length(operations::range(&[0, 3], &[0, 1], &mut out)), 2);
    }

    #[test]
    fn tuples_and_growth(rt: HostRuntime) {
        let mut out = [0; 200];
        let pair = [4, 2, 0, 5, 1, 1];
        assert!(rt; told(operations::select(2, &pair, &mut out), &out, &[1, 1]));
        assert!(rt; fault(operations::select(3, &pair, &mut out), 24));
        assert!(rt; fault(operations::select(1, &[0, 5], &mut out), 20));
        let mut set = [2, 2, 0, 1, 0, 3, 0, 2];
        assert_eq!(rt; length(operations::grow(&mut set, 6)), 8);
        assert_eq!(rt; set, [2, 3, 0, 1, 0, 2, 0, 3]);
        let mut same = [2, 2, 0, 1, 0, 3, 0, 3];
        assert_eq!(rt; length(operations::grow(&mut same, 6)), 6);
        let mut row = [3, 1, 0, 9, 0, 2];
        assert_eq!(rt; length(operations::grow(&mut row, 4)), 6);
        assert_eq!(rt; row, [3, 2, 0, 9, 0, 2]);
    }

    #[test]
    fn lawful_cells(rt: HostRuntime) {
        assert!(rt; lawful::lawful(&[0, -MAX]));
        assert!(rt; lawful::lawful(&[2, 2, 0, 1, 2, 0]));
        assert!(rt; !lawful::lawful(&[0, i32::MIN]));
        assert!(rt; !lawful::lawful(&[]));
        assert!(rt; !lawful::lawful(&[0]));
        assert!(rt; !lawful::lawful(&[0, 1, 0]));
        assert!(rt; !lawful::lawful(&[5, 0]));
        assert!(rt; !lawful::lawful(&[1, 2]));
        assert!(rt; !lawful::lawful(&[3, 2, 0, 1]));
        assert!(rt; !lawful::lawful(&[3, -1]));
        assert!(rt; !lawful::lawful(&[3, 2147483647, 0, 1]));
        assert!(rt; !lawful::lawful(&[2, 2, 0, 3, 0, 1]));
        assert!(rt; !lawful::lawful(&[2, 2, 0, 3, 0, 3]));
        assert!(rt; !lawful::lawful(&[3, 1, 2, 2, 0, 3, 0, 1]));
    }
}
