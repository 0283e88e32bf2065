// Tests of tables on examples.
#![tactic(auto)]

#[cfg(test)]
mod tests {
    use sets::{ListSet, SetKind, WordSet};
    use std::test::Fail;
    use tables::{Row, Table, TableFault};

    // A refusal by its number and its value.
    fn told(reply: Result<usize, TableFault>) -> Result<usize, (usize, usize)> {
        reply.map_err(|fault| (fault.number(), fault.value()))
    }

    // With one place: another row finds none free, and a row within the one that is there takes its place.
    #[test]
    fn one_place(rt: HostRuntime) {
        let mut memory: [Row<WordSet>; 1] = [Row::empty()];
        let mut table = Table::open(&mut memory, 3);
        assert_eq!(rt; told(table.put(&[0, 1])), Ok(0));
        assert_eq!(rt; told(table.put(&[2])), Err((6, 1)));
        assert_eq!(rt; told(table.put(&[0])), Ok(1));
        assert_eq!(rt; table.row_count(), 1);
    }

    // The list kind holds a row of 16 items, and not one of 17.
    #[test]
    fn sixteen(rt: HostRuntime) -> Result<(), Fail> {
        let mut memory: [Row<ListSet>; 1] = [Row::empty()];
        let mut table = Table::open(&mut memory, 256);
        let seventeen = [16, 15, 14, 13, 12, 11, 10, 9, 8, 7, 6, 5, 4, 3, 2, 1, 0];
        assert_eq!(rt; told(table.put(&seventeen)), Err((4, 16)));
        assert_eq!(rt; told(table.put(&seventeen[..16])), Ok(0));
        assert_eq!(rt; table.row(0)?.size(), 16);
        Ok(())
    }
}
